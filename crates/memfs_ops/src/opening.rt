//! Nodes that are opened: each description of one holds it.
ghost use Rattle.std.specs.Prelude.{◌≡◌, ℕ, ◌<◌, ◌^◌, ◌&&◌, ◌||◌, true, false, None, Ok, IsSome, Result, List, pos};
ghost use Rattle.std.specs.List.{All};
ghost use Rattle.kabi_types.specs.Arguments.{path_fault};
ghost use Rattle.kabi_types.specs.OpenFlags.{bits_of};
ghost use Rattle.kabi_types.specs.declared.errnos.Errno.{Errno as Fault};
ghost use Rattle.kabi_types.specs.declared.errnos.Errno.TheVariants.{EEXIST, EISDIR, EOPNOTSUPP};
ghost use Rattle.lru_index.specs.NameKeys.{name_key};
ghost use Rattle.posix_defs.specs.Calls.OnFiles.{opening_of};
ghost use Rattle.posix_defs.specs.Files.Descriptions as descriptions;
ghost use Rattle.posix_defs.specs.IsTree.{IsEntryName};
ghost use Rattle.posix_defs.specs.PathCalls as calls;
ghost use Rattle.posix_defs.specs.Paths.{resolve};
ghost use Rattle.posix_defs.specs.SoundDisk.{HasNode};
ghost use Rattle.posix_defs.specs.Tree.{Tree, IsInodeAt, found, is_directory as directory_in, is_in_use};
ghost use Rattle.posix_defs.specs.declared.walked.Walked.TheVariants as walked;
ghost use Rattle.name_cache.specs.Names.{name_slot};
ghost use Rattle.vnode_cache.specs.Nodes.{node_slot};
ghost use Rattle.blk_map.specs.Named.{TakesLowest};
ghost use Rattle.memfs_ops.specs.FileTree.{Stands, MayWalk, Pays, KnowsWay, in_call, one_more};
ghost use Rattle.memfs_ops.specs.Fetching.{MayFetch};
ghost use Rattle.memfs_ops.specs.Opening.{asks_of, cut_tree, unless_fault, OpenedAs, KeepsOpened};

use crate::FileTree;
use crate::telling::{is_directory, is_file, is_socket};
use bitflags::Flags;
use kabi_types::{Errno, Inode, Name27, OpenFlags};
use kheap_slabs::{KHeap, Purse};
use memfs_node::NewNode;
use path_walk::Walked;

/// What the flags of an open ask of the tree.
#[derive(Clone, Copy)]
pub struct Opening {
    /// To write, which no directory lets one.
    pub writes: bool,
    /// To make a file where the name is free.
    pub creates: bool,
    /// Together with `creates`, to fail where the name is there.
    pub excludes: bool,
    /// To take all bytes from a file that is there.
    pub truncates: bool,
}

impl Opening {
    /// What the flags of an `open` ask of the tree; what they ask of the description isn't among it.
    pub fn of(flags: OpenFlags) -> Opening
        ensures { asks_of result ≡ opening_of (pos (bits_of flags)) }
    {
        let bits = i64::from(flags.bits());
        Opening {
            writes: may_write(bits),
            creates: has_flag(bits, 64),
            excludes: has_flag(bits, 128),
            truncates: has_flag(bits, 512),
        }
    }
}

// Whether these flags open for writing, or for both.
fn may_write(bits: i64) -> bool
    ensures { result ≡ descriptions.may_write (descriptions.access_of bits) }
{
    has_flag(bits, 2) || has_flag(bits, 1)
}

// Whether a flag, which is a power of 2, is among these bits.
fn has_flag(bits: i64, flag: u64) -> bool
    requires { 0 < flag }
    ensures { result ≡ descriptions.has_flag bits flag }
{
    bits.cast_unsigned() / flag % 2 == 1
}

impl FileTree {
    /// Opens what a path leads to, a new file where the name is free and that is asked for, and answers its node, which one
    /// more holds from then on: EEXIST where something is there that must not be, EISDIR where a directory is to be written,
    /// EOPNOTSUPP where it is the name of a socket, ENOENT and ENOSPC where nothing is there and nothing is made, else the
    /// faults of the walk.
    ///
    /// Where all that it asks for on the way is cached, and no bytes are to go, nothing is read. The last name of the path and
    /// the node that was opened are cached afterwards. The blocks that it takes are the lowest of those that are free. See [open](https://pubs.opengroup.org/onlinepubs/9699919799/functions/open.html).
    pub fn open_node(
        &mut self,
        heap: &mut KHeap,
        purse: &mut Purse,
        cwd: u32,
        path: &[u8],
        how: Opening,
    ) -> Result<u32, Errno>
        requires stands { (tree : Tree) × (pins : ℕ → ℕ) × Stands heap.old self.old tree pins
            × (directory_in tree cwd ≡ true) × ((number : ℕ) → pins number < 4294967295) }
        requires path { path_fault path.now ≡ None }
        requires bytes { All (λ byte. (0 < byte) × (byte < 2 ^ 8)) path.now }
        requires may { MayWalk heap.old purse.old }
        ensures answer { (tree : Tree) (pins : ℕ → ℕ) → Stands heap.old self.old tree pins
            → OpenedAs heap.new self.new tree (calls.open_path tree cwd path.now (asks_of how)) pins result }
        ensures pays { Pays heap.old heap.new purse.old purse.new self.old self.new }
        ensures lowest { TakesLowest self.old.disk.blocks self.new.disk.blocks }
        ensures saved { (tree : Tree) (pins : ℕ → ℕ) → Stands heap.old self.old tree pins
            → KnowsWay (in_call heap.old purse.old self.old) tree cwd path.now → how.truncates ≡ false
            → self.new.disk ≡ self.old.disk }
        ensures kept { (tree : Tree) (pins : ℕ → ℕ) → Stands heap.old self.old tree pins
            → KeepsOpened self.new (resolve tree cwd path.now) result }
    {
        match self.walk(heap, purse, cwd, path) {
            Walked::Node(node) => self.open_there(heap, purse, node, how),
            Walked::Named { node, .. } => self.open_there(heap, purse, node, how),
            Walked::Free {
                parent,
                name,
                slash,
            } => self.open_free(heap, purse, parent, name, slash, how),
            Walked::Fail(errno) => Err(errno),
        }
    }

    // The same of a node that is there.
    fn open_there(
        &mut self,
        heap: &mut KHeap,
        purse: &mut Purse,
        node: u32,
        how: Opening,
    ) -> Result<u32, Errno>
        requires stands { (tree : Tree) × (pins : ℕ → ℕ) × Stands heap.old self.old tree pins
            × (is_in_use tree node ≡ true) × (pins node < 4294967295) }
        requires may { MayWalk heap.old purse.old }
        ensures answer { (tree : Tree) (pins : ℕ → ℕ) → Stands heap.old self.old tree pins
            → OpenedAs heap.new self.new tree (calls.open_there tree (asks_of how) node) pins result }
        ensures pays { Pays heap.old heap.new purse.old purse.new self.old self.new }
        ensures lowest { TakesLowest self.old.disk.blocks self.new.disk.blocks }
        ensures saved { IsSome (node_slot self.old.vnodes node) → how.truncates ≡ false → self.new.disk ≡ self.old.disk }
        ensures kept { (number : ℕ) → result ≡ Ok number → IsSome (node_slot self.new.vnodes number) }
        ensures names { self.new.names ≡ self.old.names }
    {
        let inode = self.inode(heap, purse, node);
        match open_fault(&inode, how) {
            Some(errno) => Err(errno),
            None => {
                self.hold_cut(heap, purse, node, &inode, how.truncates);
                Ok(node)
            }
        }
    }

    // One more holds a node that is cached and no socket's name; where that is asked, all bytes are taken from it before, if it
    // is a file.
    fn hold_cut(
        &mut self,
        heap: &mut KHeap,
        purse: &mut Purse,
        node: u32,
        inode: &Inode,
        asked: bool,
    )
        requires stands { (tree : Tree) × (pins : ℕ → ℕ) × Stands heap.old self.old tree pins
            × (calls.is_socket tree node ≡ false) × (pins node < 4294967295) }
        requires node { HasNode self.old.disk.blocks node inode.now }
        requires there { IsSome (node_slot self.old.vnodes node) }
        requires may { MayFetch heap.old purse.old }
        ensures stands { (tree : Tree) (pins : ℕ → ℕ) → Stands heap.old self.old tree pins
            → Stands heap.new self.new (cut_tree tree node asked) (one_more pins node) }
        ensures pays { Pays heap.old heap.new purse.old purse.new self.old self.new }
        ensures lowest { TakesLowest self.old.disk.blocks self.new.disk.blocks }
        ensures saved { asked ≡ false → self.new.disk ≡ self.old.disk }
        ensures kept { IsSome (node_slot self.new.vnodes node) }
        ensures names { self.new.names ≡ self.old.names }
    {
        self.cut(heap, purse, node, inode, asked);
        self.hold(heap, node);
    }

    // Where that is asked, all bytes are taken from a node, if it is a file.
    fn cut(&mut self, heap: &mut KHeap, purse: &mut Purse, node: u32, inode: &Inode, asked: bool)
        requires stands { (tree : Tree) × (pins : ℕ → ℕ) × Stands heap.old self.old tree pins
            × (calls.is_socket tree node ≡ false) }
        requires node { HasNode self.old.disk.blocks node inode.now }
        requires may { MayFetch heap.old purse.old }
        ensures stands { (tree : Tree) (pins : ℕ → ℕ) → Stands heap.old self.old tree pins
            → Stands heap.new self.new (cut_tree tree node asked) pins }
        ensures pays { Pays heap.old heap.new purse.old purse.new self.old self.new }
        ensures lowest { TakesLowest self.old.disk.blocks self.new.disk.blocks }
        ensures nodes { self.new.vnodes ≡ self.old.vnodes }
        ensures saved { asked ≡ false → self.new.disk ≡ self.old.disk }
        ensures names { self.new.names ≡ self.old.names }
    {
        if !asked {
            return;
        }
        if !is_file(inode) {
            return;
        }
        let mut left = *inode;
        let _done = self.size_in(heap, purse, node, &mut left, 0);
        self.renew(heap, node, &left);
    }

    // An open of a name that is free.
    fn open_free(
        &mut self,
        heap: &mut KHeap,
        purse: &mut Purse,
        parent: u32,
        name: Name27,
        slash: bool,
        how: Opening,
    ) -> Result<u32, Errno>
        requires stands { (tree : Tree) × (pins : ℕ → ℕ) × Stands heap.old self.old tree pins
            × (directory_in tree parent ≡ true) × (found tree parent name ≡ None)
            × ((number : ℕ) → pins number < 4294967295) }
        requires name { IsEntryName name }
        requires may { MayWalk heap.old purse.old }
        ensures answer { (tree : Tree) (pins : ℕ → ℕ) → Stands heap.old self.old tree pins
            → OpenedAs heap.new self.new tree (calls.open_led tree (asks_of how) (walked.Free parent name slash)) pins result }
        ensures pays { Pays heap.old heap.new purse.old purse.new self.old self.new }
        ensures lowest { TakesLowest self.old.disk.blocks self.new.disk.blocks }
        ensures kept { KeepsOpened self.new (walked.Free parent name slash) result }
    {
        if !how.creates {
            return Err(Errno::ENOENT);
        }
        if slash {
            return Err(Errno::ENOENT);
        }
        let called = name.copy();
        match self.make_new(heap, purse, parent, name, NewNode::File) {
            Ok(node) => {
                self.hold_named(heap, purse, parent, &called, node);
                Ok(node)
            }
            Err(errno) => Err(errno),
        }
    }

    // One more holds the node of a name, which are both cached from then on.
    fn hold_named(
        &mut self,
        heap: &mut KHeap,
        purse: &mut Purse,
        parent: u32,
        name: &Name27,
        node: u32,
    )
        requires stands { (tree : Tree) × (pins : ℕ → ℕ) × Stands heap.old self.old tree pins
            × (directory_in tree parent ≡ true) × (found tree parent name.now ≡ Some node)
            × (pins node < 4294967295) }
        requires may { MayWalk heap.old purse.old }
        ensures stands { (tree : Tree) (pins : ℕ → ℕ) → Stands heap.old self.old tree pins
            → Stands heap.new self.new tree (one_more pins node) }
        ensures pays { Pays heap.old heap.new purse.old purse.new self.old self.new }
        ensures bytes { self.new.disk.blocks ≡ self.old.disk.blocks }
        ensures named { IsSome (name_slot self.new.names (name_key parent name.now)) }
        ensures kept { IsSome (node_slot self.new.vnodes node) }
    {
        let _found = self.look(heap, purse, parent, name.items());
        let _inode = self.inode(heap, purse, node);
        self.hold(heap, node);
    }
}

/// The fault of an open of a node that is there, by its inode; None where it may be opened, which no socket's name may.
fn open_fault(inode: &Inode, how: Opening) -> Option<Errno>
    ensures value { (tree : Tree) (number : ℕ) → IsInodeAt tree number inode.now
        → calls.open_there tree (asks_of how) number ≡ unless_fault result (Ok (number, cut_tree tree number how.truncates)) }
    ensures named { result ≡ None → (tree : Tree) (number : ℕ) → IsInodeAt tree number inode.now
        → calls.is_socket tree number ≡ false }
{
    fault_of(is_directory(inode), is_socket(inode), how)
}

fn fault_of(is_dir: bool, is_name: bool, how: Opening) -> Option<Errno>
    ensures value { (led : Result (ℕ × Tree) Fault)
        → calls.unless (how.creates && how.excludes) EEXIST
        (calls.unless (is_dir && (how.writes || how.creates)) EISDIR (calls.unless is_name EOPNOTSUPP led))
        ≡ unless_fault result led }
    ensures named { result ≡ None → is_name ≡ false }
{
    if how.creates && how.excludes {
        return Some(Errno::EEXIST);
    }
    if is_dir && (how.writes || how.creates) {
        return Some(Errno::EISDIR);
    }
    if is_name {
        return Some(Errno::EOPNOTSUPP);
    }
    None
}
