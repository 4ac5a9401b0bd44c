//! Names that go over to other names.
ghost use Rattle.std.specs.Prelude.{◌≡◌, ◌≢◌, ℕ, ◌<◌, ◌≤◌, ◌^◌, ◌&&◌, Bool, Option, true, false, not, None, Some, Ok, Err, Result, MatchBool, MatchResult, length};
ghost use Rattle.std.specs.List.{All};
ghost use Rattle.kabi_types.specs.Arguments.{path_fault};
ghost use Rattle.kabi_types.specs.declared.errnos.Errno.TheVariants.{EBUSY, EINVAL, EISDIR, ENOSPC, ENOTDIR, ENOTEMPTY};
ghost use Rattle.kabi_types.specs.declared.errnos.Errno.{Errno as Fault};
ghost use Rattle.posix_defs.specs.IsTree.{IsEntryName};
ghost use Rattle.posix_defs.specs.PathCalls as calls;
ghost use Rattle.posix_defs.specs.Paths.{resolve};
ghost use Rattle.posix_defs.specs.SoundDisk.{HasNode};
ghost use Rattle.posix_defs.specs.Tree.{Tree, root, found, is_directory as directory_in, is_in_use, parent_at};
ghost use Rattle.posix_defs.specs.TreeChanges.{rename_over, rename_to, takes_entry, is_at_or_above, hung_if_directory};
ghost use Rattle.blk_map.specs.Named.{FreesNone, PrefersLowest, TakesNone};
ghost use Rattle.lru_index.specs.NameKeys.{name_key};
ghost use Rattle.name_cache.specs.Names.{name_slot};
ghost use Rattle.memfs_ops.specs.FileTree.{Stands, MayWalk, Looks, Pays};
ghost use Rattle.memfs_ops.specs.Changing.{MidWay, ChangedTo};
ghost use Rattle.memfs_ops.specs.Closing.{MayFree};
ghost use Rattle.memfs_ops.specs.Removing.{ToldTo, is_held, TellsHeld, TellsOpened, HoldsNoSocket};
ghost use Rattle.memfs_ops.specs.Renaming.{IsOffWay, MayReplace, MayMove, unless_told};

use crate::FileTree;
use crate::entries::EntryEdit;
use crate::removing::socket_freed;
use crate::telling::is_directory;
use cached_disk::find_parent;
use kabi_types::{Errno, Inode, Name27};
use kheap_slabs::{KHeap, Purse};
use path_walk::Walked;
use posix_defs::Blocks;

/// The size of a directory that has `.` and `..` alone.
const NO_ENTRIES: u32 = 64;

const ROOT: u32 = 1;

impl FileTree {
    /// Gives the node of one path the name of another, which loses the node that it had. Answers the number of a socket's name
    /// that went with it. ENOENT where the old name is free, EBUSY where a path leads to no name or to a directory that goes and
    /// is in use, EINVAL where a directory would go below itself, EISDIR and ENOTDIR where one of two nodes alone is a directory
    /// or a slash stands behind a free name, ENOTEMPTY where a directory that goes has entries, ENOSPC where there is no room,
    /// else the faults of both walks.
    ///
    /// Of the blocks that were free it takes the lowest. `busy` says of each node but the root whether it is held. See
    /// [rename](https://pubs.opengroup.org/onlinepubs/9699919799/functions/rename.html).
    pub fn rename_name<U: Fn(u32) -> bool>(
        &mut self,
        heap: &mut KHeap,
        purse: &mut Purse,
        cwd: u32,
        old: &[u8],
        new: &[u8],
        busy: &U,
    ) -> Result<Option<u32>, Errno>
        requires stands { (tree : Tree) × (pins : ℕ → ℕ) × Stands heap.old self.old tree pins
            × (directory_in tree cwd ≡ true) × HoldsNoSocket tree pins
            × ((number : ℕ) (answer : Bool) → U.post busy.now number answer → number ≢ root → answer ≡ is_held pins number) }
        requires old { path_fault old.now ≡ None }
        requires new { path_fault new.now ≡ None }
        requires bytes { All (λ byte. (0 < byte) × (byte < 2 ^ 8)) new.now }
        requires callable { U.IsAlwaysCallable busy.now }
        requires may { MayWalk heap.old purse.old }
        ensures answer { (tree : Tree) (pins : ℕ → ℕ) (opened held : ℕ → Bool) → Stands heap.old self.old tree pins
            → TellsOpened tree pins opened → TellsHeld pins held
            → ToldTo heap.new self.new tree
            (calls.rename_path tree cwd old.now new.now opened held) pins result }
        ensures pays { Pays heap.old heap.new purse.old purse.new self.old self.new }
        ensures lowest { PrefersLowest self.old.disk.blocks self.new.disk.blocks }
    {
        match self.walk(heap, purse, cwd, old) {
            Walked::Named {
                parent,
                name,
                node,
                ..
            } => self.rename_from(heap, purse, cwd, parent, &name, node, new, busy),
            Walked::Node(_) => self.rename_root(heap, purse, cwd, new),
            Walked::Free { .. } => Err(Errno::ENOENT),
            Walked::Fail(errno) => Err(errno),
        }
    }

    // A rename of the root, which no path may lead over: the faults of the new path come first.
    fn rename_root(
        &mut self,
        heap: &mut KHeap,
        purse: &mut Purse,
        cwd: u32,
        new: &[u8],
    ) -> Result<Option<u32>, Errno>
        requires stands { (tree : Tree) × (pins : ℕ → ℕ) × Stands heap.old self.old tree pins
            × (directory_in tree cwd ≡ true) }
        requires new { path_fault new.now ≡ None }
        requires may { MayWalk heap.old purse.old }
        ensures answer { (tree : Tree) (pins : ℕ → ℕ) → Stands heap.old self.old tree pins
            → ToldTo heap.new self.new tree (calls.rename_root (resolve tree cwd new.now)) pins result }
        ensures pays { Pays heap.old heap.new purse.old purse.new self.old self.new }
        ensures lowest { PrefersLowest self.old.disk.blocks self.new.disk.blocks }
    {
        match self.walk(heap, purse, cwd, new) {
            Walked::Node(_) => Err(Errno::EBUSY),
            Walked::Named { .. } => Err(Errno::EBUSY),
            Walked::Free { .. } => Err(Errno::EBUSY),
            Walked::Fail(errno) => Err(errno),
        }
    }

    // A rename of a name that is there.
    fn rename_from<U: Fn(u32) -> bool>(
        &mut self,
        heap: &mut KHeap,
        purse: &mut Purse,
        cwd: u32,
        dir: u32,
        name: &Name27,
        number: u32,
        new: &[u8],
        busy: &U,
    ) -> Result<Option<u32>, Errno>
        requires stands { (tree : Tree) × (pins : ℕ → ℕ) × Stands heap.old self.old tree pins
            × (directory_in tree cwd ≡ true) × (found tree dir name.now ≡ Some number) × HoldsNoSocket tree pins
            × ((number : ℕ) (answer : Bool) → U.post busy.now number answer → number ≢ root → answer ≡ is_held pins number) }
        requires new { path_fault new.now ≡ None }
        requires bytes { All (λ byte. (0 < byte) × (byte < 2 ^ 8)) new.now }
        requires callable { U.IsAlwaysCallable busy.now }
        requires may { MayWalk heap.old purse.old }
        ensures answer { (tree : Tree) (pins : ℕ → ℕ) → Stands heap.old self.old tree pins
            → ToldTo heap.new self.new tree (calls.rename_named tree (is_held pins) (is_held pins) dir name.now number
            (resolve tree cwd new.now)) pins result }
        ensures pays { Pays heap.old heap.new purse.old purse.new self.old self.new }
        ensures lowest { PrefersLowest self.old.disk.blocks self.new.disk.blocks }
    {
        match self.walk(heap, purse, cwd, new) {
            Walked::Named {
                parent: to,
                name: target,
                node,
                ..
            } => self.rename_onto(heap, purse, dir, name, number, to, &target, node, busy),
            Walked::Free {
                parent: to,
                name: target,
                slash,
            } => self.rename_away(heap, purse, dir, name, number, to, &target, slash),
            Walked::Node(_) => Err(Errno::EBUSY),
            Walked::Fail(errno) => Err(errno),
        }
    }

    // A rename over a name that is there.
    fn rename_onto<U: Fn(u32) -> bool>(
        &mut self,
        heap: &mut KHeap,
        purse: &mut Purse,
        dir: u32,
        name: &Name27,
        number: u32,
        to: u32,
        new: &Name27,
        replaced: u32,
        busy: &U,
    ) -> Result<Option<u32>, Errno>
        requires stands { (tree : Tree) × (pins : ℕ → ℕ) × Stands heap.old self.old tree pins
            × (found tree dir name.now ≡ Some number) × (found tree to new.now ≡ Some replaced) × HoldsNoSocket tree pins
            × ((number : ℕ) (answer : Bool) → U.post busy.now number answer → number ≢ root → answer ≡ is_held pins number) }
        requires callable { U.IsAlwaysCallable busy.now }
        requires may { MayWalk heap.old purse.old }
        ensures answer { (tree : Tree) (pins : ℕ → ℕ) → Stands heap.old self.old tree pins
            → ToldTo heap.new self.new tree (calls.unless (calls.goes_below tree number to) EINVAL
            (calls.rename_onto tree (is_held pins) (is_held pins) dir name.now number to new.now replaced)) pins result }
        ensures pays { Pays heap.old heap.new purse.old purse.new self.old self.new }
        ensures lowest { PrefersLowest self.old.disk.blocks self.new.disk.blocks }
    {
        if self.goes_below(heap, purse, number, to) {
            return Err(Errno::EINVAL);
        }
        if number == replaced {
            return Ok(None);
        }
        self.replace(heap, purse, dir, name, number, to, new, replaced, busy)
    }

    // The same of another node, in whose way no directory stands.
    fn replace<U: Fn(u32) -> bool>(
        &mut self,
        heap: &mut KHeap,
        purse: &mut Purse,
        dir: u32,
        name: &Name27,
        number: u32,
        to: u32,
        new: &Name27,
        replaced: u32,
        busy: &U,
    ) -> Result<Option<u32>, Errno>
        requires stands { (tree : Tree) × (pins : ℕ → ℕ) × Stands heap.old self.old tree pins
            × (found tree dir name.now ≡ Some number) × (found tree to new.now ≡ Some replaced) × HoldsNoSocket tree pins
            × ((number : ℕ) (answer : Bool) → U.post busy.now number answer → number ≢ root → answer ≡ is_held pins number)
            × IsOffWay tree number to }
        requires other { number ≢ replaced }
        requires callable { U.IsAlwaysCallable busy.now }
        requires may { MayWalk heap.old purse.old }
        ensures answer { (tree : Tree) (pins : ℕ → ℕ) → Stands heap.old self.old tree pins
            → ToldTo heap.new self.new tree
            (calls.rename_onto tree (is_held pins) (is_held pins) dir name.now number to new.now replaced) pins result }
        ensures pays { Pays heap.old heap.new purse.old purse.new self.old self.new }
        ensures lowest { PrefersLowest self.old.disk.blocks self.new.disk.blocks }
    {
        let moved = self.inode(heap, purse, number);
        let gone = self.inode(heap, purse, replaced);
        let moves = is_directory(&moved);
        let goes = is_directory(&gone);
        let used = busy(replaced);
        match onto_fault(moves, goes, gone.size == NO_ENTRIES, used) {
            Some(errno) => Err(errno),
            None => {
                let opened = self.stays_open(heap, replaced, &gone);
                self.move_over(heap, purse, dir, name, number, to, new, replaced, opened);
                Ok(socket_freed(replaced, &gone))
            }
        }
    }

    // A rename to a name that is free.
    fn rename_away(
        &mut self,
        heap: &mut KHeap,
        purse: &mut Purse,
        dir: u32,
        name: &Name27,
        number: u32,
        to: u32,
        new: &Name27,
        slash: bool,
    ) -> Result<Option<u32>, Errno>
        requires stands { (tree : Tree) × (pins : ℕ → ℕ) × Stands heap.old self.old tree pins
            × (found tree dir name.now ≡ Some number) × (directory_in tree to ≡ true) × (found tree to new.now ≡ None) }
        requires name { IsEntryName new.now }
        requires may { MayWalk heap.old purse.old }
        ensures answer { (tree : Tree) (pins : ℕ → ℕ) → Stands heap.old self.old tree pins
            → ToldTo heap.new self.new tree (calls.unless (calls.goes_below tree number to) EINVAL
            (calls.rename_away tree dir name.now number to new.now slash)) pins result }
        ensures pays { Pays heap.old heap.new purse.old purse.new self.old self.new }
        ensures lowest { PrefersLowest self.old.disk.blocks self.new.disk.blocks }
    {
        if self.goes_below(heap, purse, number, to) {
            return Err(Errno::EINVAL);
        }
        let moved = self.inode(heap, purse, number);
        if lacks_directory(slash, is_directory(&moved)) {
            return Err(Errno::ENOTDIR);
        }
        if dir == to {
            self.move_within(heap, purse, dir, name, number, new);
            return Ok(None);
        }
        nothing_told(self.move_to(heap, purse, dir, name, number, to, new))
    }

    /// Whether a node is a directory that is this one or stands above it.
    fn goes_below(&mut self, heap: &mut KHeap, purse: &mut Purse, number: u32, to: u32) -> bool
        requires stands { (tree : Tree) × (pins : ℕ → ℕ) × Stands heap.old self.old tree pins
            × (is_in_use tree number ≡ true) × (directory_in tree to ≡ true) }
        requires may { MayWalk heap.old purse.old }
        ensures value { (tree : Tree) (pins : ℕ → ℕ) → Stands heap.old self.old tree pins
            → result ≡ calls.goes_below tree number to }
        ensures looks { Looks heap.old heap.new purse.old purse.new self.old self.new }
    {
        let inode = self.inode(heap, purse, number);
        is_directory(&inode) && self.is_above(heap, purse, number, to)
    }

    // Whether a directory is another one or stands above it: from that one it goes up, and no way up is longer than there are
    // nodes.
    fn is_above(&mut self, heap: &mut KHeap, purse: &mut Purse, dir: u32, other: u32) -> bool
        requires stands { (tree : Tree) × (pins : ℕ → ℕ) × Stands heap.old self.old tree pins
            × (directory_in tree other ≡ true) }
        requires may { MayWalk heap.old purse.old }
        ensures value { (tree : Tree) (pins : ℕ → ℕ) → Stands heap.old self.old tree pins
            → result ≡ is_at_or_above tree dir other }
        ensures looks { Looks heap.old heap.new purse.old purse.new self.old self.new }
    {
        let mut at = other;
        let mut left = self.node_bound();
        while left != 0 {
            if at == dir {
                return true;
            }
            if at == ROOT {
                return false;
            }
            at = self.parent(heap, purse, at);
            left -= 1;
        }
        at == dir
    }

    // No more nodes than this are on the disk.
    fn node_bound(&self) -> u32
        ensures { result ≡ length self.now.disk.blocks }
    {
        self.disk.count()
    }

    /// The directory that `..` of a directory names.
    fn parent(&mut self, heap: &mut KHeap, purse: &mut Purse, dir: u32) -> u32
        requires stands { (tree : Tree) × (pins : ℕ → ℕ) × Stands heap.old self.old tree pins
            × (directory_in tree dir ≡ true) }
        requires may { MayWalk heap.old purse.old }
        ensures value { (tree : Tree) (pins : ℕ → ℕ) → Stands heap.old self.old tree pins
            → result ≡ parent_at tree dir }
        ensures looks { Looks heap.old heap.new purse.old purse.new self.old self.new }
    {
        find_parent(
            heap,
            purse,
            &mut self.vnodes,
            &mut self.blocks,
            &mut self.disk,
            dir,
        )
    }

    // ---- the steps

    /// A name goes over to one that leads to another node, which loses it.
    fn move_over(
        &mut self,
        heap: &mut KHeap,
        purse: &mut Purse,
        dir: u32,
        name: &Name27,
        number: u32,
        to: u32,
        new: &Name27,
        replaced: u32,
        opened: bool,
    )
        requires stands { (tree : Tree) × (pins : ℕ → ℕ) × Stands heap.old self.old tree pins
            × MayReplace tree pins dir name.now number to new.now replaced opened }
        requires may { MayWalk heap.old purse.old }
        ensures stands { (tree : Tree) (pins : ℕ → ℕ) → Stands heap.old self.old tree pins
            → Stands heap.new self.new (rename_over tree dir name.now number to new.now replaced opened) pins }
        ensures pays { Pays heap.old heap.new purse.old purse.new self.old self.new }
        ensures lowest { PrefersLowest self.old.disk.blocks self.new.disk.blocks }
    {
        self.forget_names(heap, purse, dir, name, to, new);
        let from = self.inode(heap, purse, dir);
        let mut into = self.inode(heap, purse, to);
        let mut moved = self.inode(heap, purse, number);
        let mut gone = self.inode(heap, purse, replaced);
        let aim = EntryEdit::Set {
            from: new.copy(),
            to: new.copy(),
            node: number,
        };
        self.edit_dir(heap, purse, to, &mut into, &aim);
        self.unlink_node(heap, purse, replaced, &mut gone, opened);
        let mut left = one_of(dir == to, into, from);
        let take = EntryEdit::Take { name: name.copy() };
        self.edit_dir(heap, purse, dir, &mut left, &take);
        self.hang_moved(heap, purse, number, &mut moved, to);
    }

    /// A name goes over to one that is free in another directory. ENOSPC where there is no room.
    fn move_to(
        &mut self,
        heap: &mut KHeap,
        purse: &mut Purse,
        dir: u32,
        name: &Name27,
        number: u32,
        to: u32,
        new: &Name27,
    ) -> Result<(), Errno>
        requires stands { (tree : Tree) × (pins : ℕ → ℕ) × Stands heap.old self.old tree pins
            × MayMove tree dir name.now number to new.now }
        requires apart { dir ≢ to }
        requires may { MayWalk heap.old purse.old }
        ensures answer { (tree : Tree) (pins : ℕ → ℕ) → Stands heap.old self.old tree pins
            → ChangedTo heap.new self.new tree (calls.unless (not (takes_entry tree to 0)) ENOSPC
            (Ok (rename_to tree dir name.now number to new.now))) pins result }
        ensures pays { Pays heap.old heap.new purse.old purse.new self.old self.new }
        ensures lowest { PrefersLowest self.old.disk.blocks self.new.disk.blocks }
    {
        self.forget_name(heap, purse, dir, name);
        let mut from = self.inode(heap, purse, dir);
        let mut into = self.inode(heap, purse, to);
        let mut moved = self.inode(heap, purse, number);
        if !self.has_room(heap, purse, &into) {
            return Err(Errno::ENOSPC);
        }
        let put = EntryEdit::Put {
            name: new.copy(),
            node: number,
        };
        self.edit_dir(heap, purse, to, &mut into, &put);
        let take = EntryEdit::Take { name: name.copy() };
        self.edit_dir(heap, purse, dir, &mut from, &take);
        self.hang_moved(heap, purse, number, &mut moved, to);
        Ok(())
    }

    /// A name goes over to one that is free in the same directory.
    fn move_within(
        &mut self,
        heap: &mut KHeap,
        purse: &mut Purse,
        dir: u32,
        name: &Name27,
        number: u32,
        new: &Name27,
    )
        requires stands { (tree : Tree) × (pins : ℕ → ℕ) × Stands heap.old self.old tree pins
            × MayMove tree dir name.now number dir new.now }
        requires may { MayWalk heap.old purse.old }
        ensures stands { (tree : Tree) (pins : ℕ → ℕ) → Stands heap.old self.old tree pins
            → Stands heap.new self.new (rename_to tree dir name.now number dir new.now) pins }
        ensures pays { Pays heap.old heap.new purse.old purse.new self.old self.new }
        ensures lowest { PrefersLowest self.old.disk.blocks self.new.disk.blocks }
    {
        self.forget_name(heap, purse, dir, name);
        let mut inode = self.inode(heap, purse, dir);
        let edit = EntryEdit::Set {
            from: name.copy(),
            to: new.copy(),
            node: number,
        };
        self.edit_dir(heap, purse, dir, &mut inode, &edit);
    }

    // The `..` of a moved directory names the directory where it is now.
    fn hang_moved(
        &mut self,
        heap: &mut KHeap,
        purse: &mut Purse,
        number: u32,
        inode: &mut Inode,
        to: u32,
    )
        requires mid { (told tree : Tree) × (pins : ℕ → ℕ) × MidWay heap.old self.old told tree pins }
        requires node { HasNode self.old.disk.blocks number inode.old }
        requires parent { 0 < to }
        requires may { MayFree heap.old purse.old }
        ensures mid { (told tree : Tree) (pins : ℕ → ℕ) → MidWay heap.old self.old told tree pins
            → MidWay heap.new self.new told (hung_if_directory tree number to) pins }
        ensures names { self.new.names ≡ self.old.names }
        ensures pays { Pays heap.old heap.new purse.old purse.new self.old self.new }
        ensures takes_none { TakesNone self.old.disk.blocks self.new.disk.blocks }
        ensures frees_none { FreesNone self.old.disk.blocks self.new.disk.blocks }
        ensures blocks { length self.new.disk.blocks ≡ length self.old.disk.blocks }
    {
        if is_directory(inode) {
            let edit = EntryEdit::Hang { parent: to };
            self.edit_dir(heap, purse, number, inode, &edit);
        }
    }

    // Two names go from their cache, where they are cached.
    fn forget_names(
        &mut self,
        heap: &mut KHeap,
        purse: &mut Purse,
        dir: u32,
        name: &Name27,
        to: u32,
        new: &Name27,
    )
        requires stands { (tree : Tree) × (pins : ℕ → ℕ) × Stands heap.old self.old tree pins }
        requires may { MayWalk heap.old purse.old }
        ensures looks { Looks heap.old heap.new purse.old purse.new self.old self.new }
        ensures one { name_slot self.new.names (name_key dir name.now) ≡ None }
        ensures other { name_slot self.new.names (name_key to new.now) ≡ None }
    {
        self.forget_name(heap, purse, dir, name);
        self.forget_name(heap, purse, to, new);
    }
}

/// Whether a rename over a name is a fault, by what is moved and what goes.
fn onto_fault(moves: bool, goes: bool, empty: bool, used: bool) -> Option<Errno>
    ensures { (led : Result (Option ℕ × Tree) Fault)
        → calls.unless (goes && not moves) EISDIR
        (calls.unless (moves && not goes) ENOTDIR
        (calls.unless (goes && not empty) ENOTEMPTY
        (calls.unless (goes && used) EBUSY led)))
        ≡ unless_told result led }
{
    if goes && !moves {
        return Some(Errno::EISDIR);
    }
    if moves && !goes {
        return Some(Errno::ENOTDIR);
    }
    if goes && !empty {
        return Some(Errno::ENOTEMPTY);
    }
    if goes && used {
        return Some(Errno::EBUSY);
    }
    None
}

/// Whether a slash stands behind the new name of what is no directory.
fn lacks_directory(slash: bool, is_dir: bool) -> bool
    ensures { result ≡ (slash && not is_dir) }
{
    slash && !is_dir
}

fn nothing_told(answer: Result<(), Errno>) -> Result<Option<u32>, Errno>
    ensures { MatchResult answer (λ _. result ≡ Ok None) (λ errno. result ≡ Err errno) }
{
    match answer {
        Ok(()) => Ok(None),
        Err(errno) => Err(errno),
    }
}

/// The first of two inodes, or else the second.
fn one_of(first: bool, one: Inode, other: Inode) -> Inode
    ensures { MatchBool first (result ≡ one) (result ≡ other) }
{
    if first { one } else { other }
}
