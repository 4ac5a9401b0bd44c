//! Laws of the calls on paths. Each is the contract of a function that does nothing.

ghost use Rattle.std.specs.Prelude.{◌≡◌, ℕ, ◌^◌, ◌<◌, ◌≤◌, Bool, true, List, None, Ok, Option, length, take};
ghost use Rattle.std.specs.List.{All};
ghost use Rattle.kabi_types.specs.Arguments.{path_fault};
ghost use Rattle.kabi_types.specs.declared.scripts.Program.{Program};
ghost use Rattle.posix_defs.specs.Tree.{Tree, is_directory};
ghost use Rattle.posix_defs.specs.IsTree.{IsTree};
ghost use Rattle.posix_defs.specs.PathCalls.{Opening, bind_path, link_path, mkdir_path, mkfifo_path, open_path, program_of, rename_path, rmdir_path, unlink_path};

/// A call on a path leaves a tree. The names that it makes are those of paths that the argument check passes, without a
/// zero byte.
pub fn calls_on_paths_leave_a_tree()
    ensures open { (tree : Tree) (cwd : ℕ) (path : List ℕ) (how : Opening) (number : ℕ) (after : Tree) → IsTree tree → is_directory tree cwd ≡ true
        → (path_fault path ≡ None) × All (λ byte. (0 < byte) × (byte < 2 ^ 8)) path → open_path tree cwd path how ≡ Ok (number, after) → IsTree after }
    ensures mkdir { (tree : Tree) (cwd : ℕ) (path : List ℕ) (number : ℕ) (after : Tree) → IsTree tree → is_directory tree cwd ≡ true
        → (path_fault path ≡ None) × All (λ byte. (0 < byte) × (byte < 2 ^ 8)) path → mkdir_path tree cwd path ≡ Ok (number, after) → IsTree after }
    ensures mkfifo { (tree : Tree) (cwd : ℕ) (path : List ℕ) (number : ℕ) (after : Tree) → IsTree tree → is_directory tree cwd ≡ true
        → (path_fault path ≡ None) × All (λ byte. (0 < byte) × (byte < 2 ^ 8)) path → mkfifo_path tree cwd path ≡ Ok (number, after) → IsTree after }
    ensures bind { (tree : Tree) (cwd : ℕ) (path : List ℕ) (number : ℕ) (after : Tree) → IsTree tree → is_directory tree cwd ≡ true
        → (path_fault path ≡ None) × All (λ byte. (0 < byte) × (byte < 2 ^ 8)) path → bind_path tree cwd path ≡ Ok (number, after) → IsTree after }
    ensures rmdir { (tree : Tree) (cwd : ℕ) (path : List ℕ) (busy : ℕ → Bool) (after : Tree) → IsTree tree → is_directory tree cwd ≡ true
        → rmdir_path tree cwd path busy ≡ Ok after → IsTree after }
    ensures unlink { (tree : Tree) (cwd : ℕ) (path : List ℕ) (opened : ℕ → Bool) (freed : Option ℕ) (after : Tree) → IsTree tree → is_directory tree cwd ≡ true
        → unlink_path tree cwd path opened ≡ Ok (freed, after) → IsTree after }
    ensures link { (tree : Tree) (cwd : ℕ) (old new : List ℕ) (after : Tree) → IsTree tree → is_directory tree cwd ≡ true
        → (path_fault new ≡ None) × All (λ byte. (0 < byte) × (byte < 2 ^ 8)) new → link_path tree cwd old new ≡ Ok after → IsTree after }
    ensures rename { (tree : Tree) (cwd : ℕ) (old new : List ℕ) (opened busy : ℕ → Bool) (freed : Option ℕ) (after : Tree) → IsTree tree → is_directory tree cwd ≡ true
        → (path_fault new ≡ None) × All (λ byte. (0 < byte) × (byte < 2 ^ 8)) new → rename_path tree cwd old new opened busy ≡ Ok (freed, after) → IsTree after }
{}

/// Thirty bytes of a file suffice to find the program that it starts: the line of a program whose name has at most 27 bytes
/// is no longer.
pub fn thirty_bytes_tell_the_program()
    ensures { (programs : List Program) (bytes : List ℕ) → All (λ program. length program.name ≤ 27) programs → program_of programs (take 30 bytes) ≡ program_of programs bytes }
{}
