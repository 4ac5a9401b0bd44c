//! Files that name a program of the script.
ghost use Rattle.std.specs.Prelude.{◌≡◌, ◌≤◌, ℕ, None, Ok, IsSome, length, nat_eq, true};
ghost use Rattle.std.specs.List.{starts_with};
ghost use Rattle.kabi_types.specs.Arguments.{path_fault};
ghost use Rattle.posix_defs.specs.PathCalls as calls;
ghost use Rattle.posix_defs.specs.Paths.{resolve};
ghost use Rattle.posix_defs.specs.Tree.{Tree, is_directory as directory_in, is_in_use};
ghost use Rattle.vnode_cache.specs.Nodes.{node_slot};
ghost use Rattle.memfs_ops.specs.FileTree.{Stands, MayWalk, Pays, KnowsWay, KeepsLed, in_call};
ghost use Rattle.memfs_ops.specs.Starting.{line_of, ArePrograms, KnowsLine, KeepsLine};

use crate::FileTree;
use crate::telling::{is_file, node_led};
use kabi_types::{Errno, Name27, Program, Script};
use kheap_slabs::{KHeap, Purse};

impl FileTree {
    /// The program that a file names, by its place in the script: the file begins with `#!`, its name and a newline. EACCES
    /// where the path leads to a directory, a socket's name or a FIFO, ENOEXEC where the file names none, else the faults of the walk.
    ///
    /// Where all that is asked for on the way is cached, and what the first 30 bytes of the file are reached by, nothing is read.
    /// What was found is cached afterwards, by its name and its inode, and so is its first block. See
    /// [exec](https://pubs.opengroup.org/onlinepubs/9699919799/functions/exec.html).
    pub fn program_of(
        &mut self,
        heap: &mut KHeap,
        purse: &mut Purse,
        cwd: u32,
        path: &[u8],
        script: &Script,
    ) -> Result<u32, Errno>
        requires stands { (tree : Tree) × (pins : ℕ → ℕ) × Stands heap.old self.old tree pins
            × (directory_in tree cwd ≡ true) }
        requires path { path_fault path.now ≡ None }
        requires programs { ArePrograms script.now.programs }
        requires may { MayWalk heap.old purse.old }
        ensures value { (tree : Tree) (pins : ℕ → ℕ) → Stands heap.old self.old tree pins
            → result ≡ calls.exec_path tree cwd path.now script.now.programs }
        ensures stands { (tree : Tree) (pins : ℕ → ℕ) → Stands heap.old self.old tree pins
            → Stands heap.new self.new tree pins }
        ensures pays { Pays heap.old heap.new purse.old purse.new self.old self.new }
        ensures saved { (tree : Tree) (pins : ℕ → ℕ) → Stands heap.old self.old tree pins
            → KnowsWay (in_call heap.old purse.old self.old) tree cwd path.now
            → ((number : ℕ) → calls.node_led (resolve tree cwd path.now) ≡ Ok number → KnowsLine self.old number)
            → self.new.disk ≡ self.old.disk }
        ensures kept { (tree : Tree) (pins : ℕ → ℕ) → Stands heap.old self.old tree pins
            → KeepsLed self.new (resolve tree cwd path.now) }
        ensures line { (tree : Tree) (pins : ℕ → ℕ) (number : ℕ) → Stands heap.old self.old tree pins
            → calls.node_led (resolve tree cwd path.now) ≡ Ok number → KeepsLine self.old self.new number }
    {
        match node_led(self.walk(heap, purse, cwd, path)) {
            Ok(number) => self.program_at(heap, purse, number, script),
            Err(errno) => Err(errno),
        }
    }

    // The same of a node that a path led to.
    fn program_at(
        &mut self,
        heap: &mut KHeap,
        purse: &mut Purse,
        number: u32,
        script: &Script,
    ) -> Result<u32, Errno>
        requires stands { (tree : Tree) × (pins : ℕ → ℕ) × Stands heap.old self.old tree pins
            × (is_in_use tree number ≡ true) }
        requires programs { ArePrograms script.now.programs }
        requires may { MayWalk heap.old purse.old }
        ensures value { (tree : Tree) (pins : ℕ → ℕ) → Stands heap.old self.old tree pins
            → result ≡ calls.exec_found tree script.now.programs (Ok number) }
        ensures stands { (tree : Tree) (pins : ℕ → ℕ) → Stands heap.old self.old tree pins
            → Stands heap.new self.new tree pins }
        ensures pays { Pays heap.old heap.new purse.old purse.new self.old self.new }
        ensures saved { IsSome (node_slot self.old.vnodes number) → KnowsLine self.old number
            → self.new.disk ≡ self.old.disk }
        ensures kept { IsSome (node_slot self.new.vnodes number) }
        ensures line { KeepsLine self.old self.new number }
        ensures names { self.new.names ≡ self.old.names }
    {
        let inode = self.inode(heap, purse, number);
        if !is_file(&inode) {
            return Err(Errno::EACCES);
        }
        let mut line = [0; 30];
        let count = self.read_bytes(heap, purse, &inode, 0, &mut line);
        program_named(script.programs.items(), &line[..count as usize])
    }
}

// The first program whose line the bytes begin with, by its place.
fn program_named(programs: &[Program], bytes: &[u8]) -> Result<u32, Errno>
    requires { length programs.now ≤ 64 }
    ensures { result ≡ calls.program_of programs.now bytes.now }
{
    match programs
        .iter()
        .position(|program| begins_with_line(bytes, &program.name))
    {
        Some(place) => Ok(place as u32),
        None => Err(Errno::ENOEXEC),
    }
}

// Whether bytes begin with `#!`, a name and a newline.
fn begins_with_line(bytes: &[u8], name: &Name27) -> bool
    ensures { result ≡ starts_with nat_eq bytes.now (line_of name.now) }
{
    let Some(marked) = bytes.strip_prefix(b"#!") else {
        return false;
    };
    match marked.strip_prefix(name.items()) {
        Some(named) => named.starts_with(b"\n"),
        None => false,
    }
}
