//! Laws of a directory as a list of entries. Each is the contract of a function that does nothing.

ghost use Rattle.std.specs.Prelude.{◌≡◌, ◌≢◌, ℕ, ◌+◌, ◌*◌, ◌/◌, ◌<◌, ◌↔◌, List, [], ◌∷◌, ◌++◌, Option, None, Some, IfSome, false, true, length, drop, slice_index_or, slice_set, take};
ghost use Rattle.std.specs.List.{swap_remove, AllPairs};
ghost use Rattle.std.specs.List.Sorted.{IsPermutation};
ghost use Rattle.kabi_types.specs.declared.inodes.DirEntry.{DirEntry};
ghost use Rattle.kabi_types.specs.declared.inodes.Inode.{Inode};
ghost use Rattle.posix_defs.specs.SoundDisk.{HasInode, HasNode, Sound};
ghost use Rattle.posix_defs.specs.DiskContents.{entry_for, own_name, parent_name, node_bytes, Finds, HasEntries};
ghost use Rattle.posix_defs.specs.DiskTree.{ChangesNode, StandsFor};
ghost use Rattle.posix_defs.specs.PathCalls.{list_node};
ghost use Rattle.posix_defs.specs.Tree.{Tree, entries_at, found, found_among, is_directory};
ghost use Rattle.posix_defs.specs.TreeChanges.{entry_put, entry_taken, entry_aimed, entry_renamed, hung, no_entry, place_of, takes_entry, with_entries};
ghost use Rattle.memfs_dir.specs.Slots.{entry_size};
ghost use Rattle.memfs_dir.specs.Looking.{asked_to_find};
ghost use Rattle.memfs_dir.specs.Listed.{AreDistinct, IsFull, IsFullBeside, Relists, at_place, place_called};

/// What is added under a name that was free is found at the end; every other name leads to the node that it led to.
pub fn an_added_entry_is_found_at_the_end()
    ensures found { (entries : List DirEntry) (entry : DirEntry) → place_called entry.name entries ≡ None → place_called entry.name (entries ++ entry ∷ []) ≡ Some (length entries) }
    ensures others { (entries : List DirEntry) (entry : DirEntry) (name : List ℕ) → name ≢ entry.name → found_among (entries ++ entry ∷ []) name ≡ found_among entries name }
    ensures distinct { (entries : List DirEntry) (entry : DirEntry) → AreDistinct entries → place_called entry.name entries ≡ None → AreDistinct (entries ++ entry ∷ []) }
{}

/// Where no two entries have one name, the name of an entry that was removed isn't found, and every other name leads to the
/// node that it led to.
pub fn a_removed_entry_is_not_found()
    ensures gone { (entries : List DirEntry) (place : ℕ) → AreDistinct entries → place < length entries → place_called (at_place entries place).name (swap_remove entries place no_entry) ≡ None }
    ensures others { (entries : List DirEntry) (place : ℕ) (name : List ℕ) → AreDistinct entries → place < length entries → name ≢ (at_place entries place).name
        → found_among (swap_remove entries place no_entry) name ≡ found_among entries name }
    ensures distinct { (entries : List DirEntry) (place : ℕ) → AreDistinct entries → place < length entries → AreDistinct (swap_remove entries place no_entry) }
{}

/// A name that neither an entry had nor the one that is put in its place has leads to the node that it led to.
pub fn an_entry_put_in_place_changes_no_other_name()
    ensures { (entries : List DirEntry) (place : ℕ) (entry : DirEntry) (name : List ℕ) → place < length entries → name ≢ (at_place entries place).name → name ≢ entry.name
        → found_among (slice_set entries place entry) name ≡ found_among entries name }
{}

/// An entry that is added and removed leaves the list as it was. One that is removed and added leaves its entries, in
/// another order.
pub fn adding_and_removing_undo_each_other()
    ensures same { (entries : List DirEntry) (entry : DirEntry) → swap_remove (entries ++ entry ∷ []) (length entries) no_entry ≡ entries }
    ensures permuted { (entries : List DirEntry) (place : ℕ) → place < length entries → IsPermutation entries (swap_remove entries place no_entry ++ at_place entries place ∷ []) }
{}

/// The entries of a directory of the tree stand behind `.` and `..`: what a call makes of the whole list is the tree's change
/// of those behind.
pub fn calls_change_the_entries_behind_the_dots()
    ensures found { (dir parent : ℕ) (entries : List DirEntry) (name : List ℕ) → name ≢ own_name → name ≢ parent_name → place_of name entries < length entries
        → place_called name (entry_for dir own_name ∷ entry_for parent parent_name ∷ entries) ≡ Some (place_of name entries + 2) }
    ensures missing { (dir parent : ℕ) (entries : List DirEntry) (name : List ℕ) → name ≢ own_name → name ≢ parent_name → found_among entries name ≡ None
        → place_called name (entry_for dir own_name ∷ entry_for parent parent_name ∷ entries) ≡ None }
    ensures put { (dir parent node : ℕ) (entries : List DirEntry) (name : List ℕ)
        → (entry_for dir own_name ∷ entry_for parent parent_name ∷ entries) ++ entry_for node name ∷ [] ≡ entry_for dir own_name ∷ entry_for parent parent_name ∷ entry_put name node entries }
    ensures taken { (dir parent : ℕ) (entries : List DirEntry) (name : List ℕ) → place_of name entries < length entries
        → swap_remove (entry_for dir own_name ∷ entry_for parent parent_name ∷ entries) (place_of name entries + 2) no_entry ≡ entry_for dir own_name ∷ entry_for parent parent_name ∷ entry_taken name entries }
    ensures aimed { (dir parent node : ℕ) (entries : List DirEntry) (name : List ℕ)
        → slice_set (entry_for dir own_name ∷ entry_for parent parent_name ∷ entries) (place_of name entries + 2) (entry_for node name) ≡ entry_for dir own_name ∷ entry_for parent parent_name ∷ entry_aimed name node entries }
    ensures renamed { (dir parent node : ℕ) (entries : List DirEntry) (old new : List ℕ)
        → slice_set (entry_for dir own_name ∷ entry_for parent parent_name ∷ entries) (place_of old entries + 2) (entry_for node new) ≡ entry_for dir own_name ∷ entry_for parent parent_name ∷ entry_renamed old new node entries }
    ensures hung { (dir parent other : ℕ) (entries : List DirEntry)
        → slice_set (entry_for dir own_name ∷ entry_for parent parent_name ∷ entries) 1 (entry_for other parent_name) ≡ entry_for dir own_name ∷ entry_for other parent_name ∷ entries }
{}

/// What a look finds is what a cache of names may have: the node of the entry at the place that is answered.
pub fn a_look_finds_what_the_name_leads_to()
    ensures found { (entries : List DirEntry) (name : List ℕ) (place : ℕ) → place_called name entries ≡ Some place → Finds entries name (at_place entries place).node }
    ensures missing { (entries : List DirEntry) (name : List ℕ) (node : ℕ) → place_called name entries ≡ None → ¬ (Finds entries name node) }
{}

/// A call that changes one node leaves every other directory its entries.
pub fn other_directories_keep_their_entries()
    ensures { (before after : List (List ℕ)) (number other : ℕ) (inode : Inode) (entries : List DirEntry) → ChangesNode before after number → other ≢ number
        → HasInode before other inode → HasEntries before inode entries → HasEntries after inode entries }
{}

/// A directory has no room for an entry, and for so many blocks beside it, exactly where the tree that its disk stands for
/// says so.
pub fn a_full_directory_is_one_of_the_tree()
    ensures beside { (disk : List (List ℕ)) (tree : Tree) (number beside : ℕ) (inode : Inode) → StandsFor disk tree → HasNode disk number inode → IsFullBeside disk inode beside ↔ (takes_entry tree number beside ≡ false) }
    ensures alone { (disk : List (List ℕ)) (tree : Tree) (number : ℕ) (inode : Inode) → StandsFor disk tree → HasNode disk number inode → IsFull disk inode ↔ (takes_entry tree number 0 ≡ false) }
{}

/// A look asks for no block twice.
pub fn a_look_asks_for_each_block_once()
    ensures { (disk : List (List ℕ)) (number : ℕ) (inode : Inode) (place : Option ℕ) → Sound disk → HasNode disk number inode → IfSome place (λ p. entry_size * p < inode.size)
        → AllPairs (λ one other. one ≢ other) (asked_to_find disk inode place) }
{}

/// A look finds a name of the tree's directory where its entry stands behind `.` and `..`, and no name that the tree's
/// directory hasn't.
pub fn a_look_finds_the_names_of_the_tree()
    ensures found { (disk : List (List ℕ)) (tree : Tree) (dir node : ℕ) (inode : Inode) (entries : List DirEntry) (name : List ℕ) → StandsFor disk tree → is_directory tree dir ≡ true
        → HasNode disk dir inode → HasEntries disk inode entries → name ≢ own_name → name ≢ parent_name → found tree dir name ≡ Some node
        → place_called name entries ≡ Some (place_of name (entries_at tree dir) + 2) }
    ensures missing { (disk : List (List ℕ)) (tree : Tree) (dir : ℕ) (inode : Inode) (entries : List DirEntry) (name : List ℕ) → StandsFor disk tree → is_directory tree dir ≡ true
        → HasNode disk dir inode → HasEntries disk inode entries → name ≢ own_name → name ≢ parent_name → found tree dir name ≡ None → place_called name entries ≡ None }
{}

/// What a call leaves of a directory is what the tree has after its own change of the entries: an entry put last, taken
/// out, aimed at another node or given another name, and `..` of a directory that hangs elsewhere.
pub fn calls_on_a_directory_change_the_tree()
    ensures put { (before after : List (List ℕ)) (tree : Tree) (dir node : ℕ) (old new : Inode) (name : List ℕ) → StandsFor before tree → is_directory tree dir ≡ true → HasNode before dir old
        → Relists dir before old (λ entries. entries ++ entry_for node name ∷ []) after new → StandsFor after (with_entries tree dir (entry_put name node)) }
    ensures taken { (before after : List (List ℕ)) (tree : Tree) (dir node place : ℕ) (old new : Inode) (name : List ℕ) → StandsFor before tree → is_directory tree dir ≡ true → HasNode before dir old
        → found tree dir name ≡ Some node → place ≡ place_of name (entries_at tree dir) + 2 → Relists dir before old (λ entries. swap_remove entries place no_entry) after new
        → StandsFor after (with_entries tree dir (entry_taken name)) }
    ensures aimed { (before after : List (List ℕ)) (tree : Tree) (dir node place : ℕ) (old new : Inode) (name : List ℕ) → StandsFor before tree → is_directory tree dir ≡ true → HasNode before dir old
        → place ≡ place_of name (entries_at tree dir) + 2 → Relists dir before old (λ entries. slice_set entries place (entry_for node name)) after new
        → StandsFor after (with_entries tree dir (entry_aimed name node)) }
    ensures renamed { (before after : List (List ℕ)) (tree : Tree) (dir node place : ℕ) (old new : Inode) (name other : List ℕ) → StandsFor before tree → is_directory tree dir ≡ true → HasNode before dir old
        → place ≡ place_of name (entries_at tree dir) + 2 → Relists dir before old (λ entries. slice_set entries place (entry_for node other)) after new
        → StandsFor after (with_entries tree dir (entry_renamed name other node)) }
    ensures hung { (before after : List (List ℕ)) (tree : Tree) (dir parent : ℕ) (old new : Inode) → StandsFor before tree → is_directory tree dir ≡ true → HasNode before dir old
        → Relists dir before old (λ entries. slice_set entries 1 (entry_for parent parent_name)) after new → StandsFor after (hung tree dir parent) }
{}

/// What is told of a directory's entries are its bytes, from a place on, whole entries of them.
pub fn what_is_listed_are_a_directorys_bytes()
    ensures { (disk : List (List ℕ)) (tree : Tree) (dir at count : ℕ) (inode : Inode) → StandsFor disk tree → is_directory tree dir ≡ true → HasNode disk dir inode
        → list_node tree dir at count ≡ take (32 * (count / 32)) (drop at (node_bytes disk inode)) }
{}
