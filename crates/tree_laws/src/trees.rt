//! Laws of the tree of files. Each is the contract of a function that does nothing.

ghost use Rattle.std.specs.Prelude.{◌≡◌, ◌≢◌, ℕ, ◌+◌, ◌^◌, ◌<◌, ◌≤◌, Bool, true, false, List, [], None, Some, Ok, Err, length, max, slice_index, take, drop};
ghost use Rattle.std.specs.List.{All};
ghost use Rattle.kabi_types.specs.declared.errnos.Errno.TheVariants.{EFBIG, ENOSPC};
ghost use Rattle.posix_defs.specs.DiskFormat.{greatest_size};
ghost use Rattle.posix_defs.specs.FileBytes.{overwritten, resized};
ghost use Rattle.posix_defs.specs.Tree.{Content, File, Tree, entries_at, found, is_directory, is_in_use, new_tree, node_at};
ghost use Rattle.posix_defs.specs.TreeChanges.{HasNoRoom, IsAtOrAbove, closed, link, make, rename_over, rename_to, resize, takes_entry, unlink, write};
ghost use Rattle.posix_defs.specs.PathCalls.{is_socket};
ghost use Rattle.posix_defs.specs.IsTree.{IsEntryName, IsNewContent, IsTree};
ghost use Rattle.posix_defs.specs.PathCalls.{read_node};

/// A disk's new root stands alone in a tree.
pub fn a_new_root_is_a_tree()
    ensures { (blocks : ℕ) → 16 ≤ blocks → blocks ≤ 4096 → IsTree (new_tree blocks) }
{}

/// What is made under a new name is found there, and leaves a tree.
pub fn what_is_made_is_found()
    ensures found { (tree : Tree) (dir : ℕ) (name : List ℕ) (content : Content) (number : ℕ) (after : Tree)
        → is_directory tree dir ≡ true → found tree dir name ≡ None → IsNewContent dir content
        → make tree dir name content ≡ Ok (number, after)
        → (found after dir name ≡ Some number) × (node_at after number ≡ Some (record { links = 1; content = content })) }
    ensures kept { (tree : Tree) (dir : ℕ) (name : List ℕ) (content : Content) (number : ℕ) (after : Tree) → IsTree tree
        → is_directory tree dir ≡ true → IsEntryName name → found tree dir name ≡ None → IsNewContent dir content
        → make tree dir name content ≡ Ok (number, after) → IsTree after }
{}

/// A name that goes is free, and leaves a tree. A directory that goes with it is empty, and no description keeps it,
/// nor a socket's name.
pub fn a_removed_name_is_free()
    ensures free { (tree : Tree) (dir : ℕ) (name : List ℕ) (number : ℕ) (opened : Bool) → IsTree tree → found tree dir name ≡ Some number
        → (is_directory tree number ≡ true → (entries_at tree number ≡ []) × (opened ≡ false))
        → found (unlink tree dir name number opened) dir name ≡ None }
    ensures kept { (tree : Tree) (dir : ℕ) (name : List ℕ) (number : ℕ) (opened : Bool) → IsTree tree → found tree dir name ≡ Some number
        → (is_directory tree number ≡ true → (entries_at tree number ≡ []) × (opened ≡ false)) → (is_socket tree number ≡ true → opened ≡ false)
        → IsTree (unlink tree dir name number opened) }
{}

/// After a rename over a name that is there, that name leads to the node and the old one is free, in a tree. A directory
/// that goes is empty, and none is moved below itself; no description keeps a socket's name that goes.
pub fn a_rename_over_a_name_moves_the_node()
    ensures found { (tree : Tree) (dir : ℕ) (name : List ℕ) (number to : ℕ) (new : List ℕ) (replaced : ℕ) (opened : Bool) → IsTree tree
        → found tree dir name ≡ Some number → found tree to new ≡ Some replaced → number ≢ replaced
        → (is_directory tree replaced ≡ true → (entries_at tree replaced ≡ []) × (opened ≡ false))
        → found (rename_over tree dir name number to new replaced opened) to new ≡ Some number }
    ensures free { (tree : Tree) (dir : ℕ) (name : List ℕ) (number to : ℕ) (new : List ℕ) (replaced : ℕ) (opened : Bool) → IsTree tree
        → found tree dir name ≡ Some number → found tree to new ≡ Some replaced → number ≢ replaced
        → (is_directory tree replaced ≡ true → (entries_at tree replaced ≡ []) × (opened ≡ false))
        → found (rename_over tree dir name number to new replaced opened) dir name ≡ None }
    ensures kept { (tree : Tree) (dir : ℕ) (name : List ℕ) (number to : ℕ) (new : List ℕ) (replaced : ℕ) (opened : Bool) → IsTree tree
        → found tree dir name ≡ Some number → found tree to new ≡ Some replaced → number ≢ replaced
        → (is_directory tree replaced ≡ true → (entries_at tree replaced ≡ []) × (opened ≡ false)) → (is_socket tree replaced ≡ true → opened ≡ false)
        → (is_directory tree number ≡ true → ¬ (IsAtOrAbove tree number to))
        → IsTree (rename_over tree dir name number to new replaced opened) }
{}

/// After a rename to a name that was missing, that name leads to the node and the old one is free, in a tree, where there
/// is room in the other directory and none is moved below itself.
pub fn a_rename_to_a_new_name_moves_the_node()
    ensures found { (tree : Tree) (dir : ℕ) (name : List ℕ) (number to : ℕ) (new : List ℕ) → IsTree tree
        → found tree dir name ≡ Some number → is_directory tree to ≡ true → found tree to new ≡ None → IsEntryName new
        → (found (rename_to tree dir name number to new) to new ≡ Some number) × (found (rename_to tree dir name number to new) dir name ≡ None) }
    ensures kept { (tree : Tree) (dir : ℕ) (name : List ℕ) (number to : ℕ) (new : List ℕ) → IsTree tree
        → found tree dir name ≡ Some number → is_directory tree to ≡ true → found tree to new ≡ None → IsEntryName new
        → (dir ≢ to → takes_entry tree to 0 ≡ true) → (is_directory tree number ≡ true → ¬ (IsAtOrAbove tree number to))
        → IsTree (rename_to tree dir name number to new) }
{}

/// A further name of a file leaves a tree.
pub fn a_further_name_leaves_a_tree()
    ensures { (tree : Tree) (dir : ℕ) (name : List ℕ) (number : ℕ) (after : Tree) → IsTree tree → is_directory tree dir ≡ true
        → is_in_use tree number ≡ true → is_directory tree number ≡ false → IsEntryName name → found tree dir name ≡ None
        → link tree dir name number ≡ Ok after → IsTree after }
{}

/// A file that is written or gets another size leaves a tree, and so does one that is closed for the last time.
pub fn a_changed_file_leaves_a_tree()
    ensures written { (tree : Tree) (number links at : ℕ) (old bytes : List ℕ) (count : ℕ) (after : Tree) → IsTree tree
        → node_at tree number ≡ Some (record { links = links; content = File old }) → All (λ byte. byte < 2 ^ 8) bytes
        → write tree number at bytes ≡ Ok (count, after) → IsTree after }
    ensures sized { (tree : Tree) (number links size : ℕ) (old : List ℕ) (after : Tree) → IsTree tree
        → node_at tree number ≡ Some (record { links = links; content = File old }) → resize tree number size ≡ Ok after → IsTree after }
    ensures closed { (tree : Tree) (number : ℕ) → IsTree tree → is_in_use tree number ≡ true → IsTree (closed tree number) }
{}

/// A write moves the most bytes for which the blocks of the new size are there: more of them would take blocks that
/// aren't, or pass the greatest size. ENOSPC comes where not even one fits, and EFBIG behind the greatest size.
pub fn a_write_goes_as_far_as_there_is_room()
    ensures far { (tree : Tree) (number at : ℕ) (bytes : List ℕ) (count : ℕ) (after : Tree) → write tree number at bytes ≡ Ok (count, after)
        → (0 < count) × (count ≤ length bytes)
        × ((more : ℕ) → count < more → more ≤ length bytes → at + more ≤ greatest_size → HasNoRoom tree number (at + more)) }
    ensures none { (tree : Tree) (number at : ℕ) (bytes : List ℕ) → write tree number at bytes ≡ Err ENOSPC
        → (at < greatest_size) × ((more : ℕ) → 0 < more → more ≤ length bytes → at + more ≤ greatest_size → HasNoRoom tree number (at + more)) }
    ensures big { (tree : Tree) (number at : ℕ) (bytes : List ℕ) → write tree number at bytes ≡ Err EFBIG → greatest_size ≤ at }
{}

/// What was written is read, and every other byte is as it was; a gap reads as zeros. A file that gets another size keeps
/// its bytes within it, with zeros behind them.
pub fn bytes_are_read_as_they_were_written()
    ensures back { (at : ℕ) (new old : List ℕ) → take (length new) (drop at (overwritten at new old)) ≡ new }
    ensures before { (at : ℕ) (new old : List ℕ) (k : ℕ) → k < at → slice_index (overwritten at new old) k ≡ slice_index old k }
    ensures behind { (at : ℕ) (new old : List ℕ) (k : ℕ) → at + length new ≤ k → slice_index (overwritten at new old) k ≡ slice_index old k }
    ensures len { (at : ℕ) (new old : List ℕ) → length (overwritten at new old) ≡ max (at + length new) (length old) }
    ensures sized { (size : ℕ) (bytes : List ℕ) (k : ℕ) → k < size → slice_index (resized size bytes) k ≡ slice_index bytes k }
    ensures size { (size : ℕ) (bytes : List ℕ) → length (resized size bytes) ≡ size }
{}

/// What a write put is read of the file.
pub fn what_was_written_is_read()
    ensures { (tree : Tree) (number links at : ℕ) (old bytes : List ℕ) (count : ℕ) (after : Tree) → node_at tree number ≡ Some (record { links = links; content = File old })
        → write tree number at bytes ≡ Ok (count, after) → read_node after number at count ≡ take count bytes }
{}
