//! Laws of paths. Each is the contract of a function that does nothing.

ghost use Rattle.std.specs.Prelude.{◌≡◌, ℕ, ◌<◌, ◌^◌, ◌↔◌, true, List, None, Some, Ok, length};
ghost use Rattle.std.specs.List.{All};
ghost use Rattle.posix_defs.specs.DiskContents.{own_name, parent_name};
ghost use Rattle.posix_defs.specs.Tree.{Tree, climbed, is_directory, parent_at, root};
ghost use Rattle.posix_defs.specs.TreeChanges.{IsAtOrAbove, is_at_or_above};
ghost use Rattle.posix_defs.specs.IsTree.{IsEntryName, IsTree};
ghost use Rattle.kabi_types.specs.Arguments.{path_fault};
ghost use Rattle.posix_defs.specs.Paths.{IsLed, last_name, resolve, step};

/// Where a path leads is there. Its faults are ENOENT and ENOTDIR alone.
pub fn a_path_leads_to_what_is_there()
    ensures { (tree : Tree) (start : ℕ) (path : List ℕ) → IsTree tree → is_directory tree start ≡ true → IsLed tree (resolve tree start path) }
{}

/// `.` stays, `..` goes to the parent, and that of the root is the root.
pub fn dots_lead_to_directories()
    ensures own { (tree : Tree) (dir : ℕ) → step tree dir own_name ≡ Ok dir }
    ensures parent { (tree : Tree) (dir : ℕ) → step tree dir parent_name ≡ Ok (parent_at tree dir) }
    ensures root { (tree : Tree) → IsTree tree → step tree root parent_name ≡ Ok root }
{}

/// The last name of a path that the argument check passes, without a zero byte, may be an entry's.
pub fn a_last_name_may_be_an_entrys()
    ensures { (tree : Tree) (start : ℕ) (path name : List ℕ) → path_fault path ≡ None → All (λ byte. (0 < byte) × (byte < 2 ^ 8)) path
        → last_name (resolve tree start path) ≡ Some name → IsEntryName name }
{}

/// Every directory climbs to the root in as many steps as there are nodes; so the test whether one is at or above another
/// tells just that.
pub fn ways_up_end_at_the_root()
    ensures climbs { (tree : Tree) (dir : ℕ) → IsTree tree → is_directory tree dir ≡ true → climbed tree (length tree.nodes) dir ≡ root }
    ensures test { (tree : Tree) (dir other : ℕ) → IsTree tree → is_directory tree other ≡ true
        → (is_at_or_above tree dir other ≡ true) ↔ IsAtOrAbove tree dir other }
{}
