//! Laws of what a change of the tree leaves alone. Each is the contract of a function that does nothing.

ghost use Rattle.std.specs.Prelude.{◌≡◌, ◌≢◌, ◌⊎◌, ℕ, Bool, true, false, List, [], Some, Ok};
ghost use Rattle.posix_defs.specs.Tree.{Content, Tree, entries_at, found, is_directory, node_at};
ghost use Rattle.posix_defs.specs.TreeChanges.{closed, entry_aimed, entry_put, entry_taken, link, link_dropped, make, rename_over, rename_to, resize, unlink, with_entries, write};
ghost use Rattle.posix_defs.specs.IsTree.{IsNewContent, IsTree};
ghost use Rattle.tree_laws.specs.Untouched.{IsElsewhere};

/// A name that a change doesn't touch leads on to its node, or is free as before, in whatever directory it stands: also in
/// one that is made or goes, which has none.
pub fn other_names_lead_on_to_their_nodes()
    ensures make { (tree : Tree) (dir : ℕ) (name : List ℕ) (content : Content) (number : ℕ) (after : Tree) → is_directory tree dir ≡ true → IsNewContent dir content
        → make tree dir name content ≡ Ok (number, after) → (other : ℕ) (called : List ℕ) → IsElsewhere dir name other called → found after other called ≡ found tree other called }
    ensures unlink { (tree : Tree) (dir : ℕ) (name : List ℕ) (number : ℕ) (opened : Bool) → IsTree tree → found tree dir name ≡ Some number
        → (is_directory tree number ≡ true → (entries_at tree number ≡ []) × (opened ≡ false))
        → (other : ℕ) (called : List ℕ) → IsElsewhere dir name other called → found (unlink tree dir name number opened) other called ≡ found tree other called }
    ensures link { (tree : Tree) (dir : ℕ) (name : List ℕ) (number : ℕ) (after : Tree) → is_directory tree dir ≡ true → link tree dir name number ≡ Ok after
        → (other : ℕ) (called : List ℕ) → IsElsewhere dir name other called → found after other called ≡ found tree other called }
    ensures rename_over { (tree : Tree) (dir : ℕ) (name : List ℕ) (number to : ℕ) (new : List ℕ) (replaced : ℕ) (opened : Bool) → IsTree tree
        → found tree dir name ≡ Some number → found tree to new ≡ Some replaced → number ≢ replaced
        → (is_directory tree replaced ≡ true → (entries_at tree replaced ≡ []) × (opened ≡ false))
        → (other : ℕ) (called : List ℕ) → IsElsewhere dir name other called → IsElsewhere to new other called
        → found (rename_over tree dir name number to new replaced opened) other called ≡ found tree other called }
    ensures rename_to { (tree : Tree) (dir : ℕ) (name : List ℕ) (number to : ℕ) (new : List ℕ) → IsTree tree → found tree dir name ≡ Some number → is_directory tree to ≡ true
        → (other : ℕ) (called : List ℕ) → IsElsewhere dir name other called → IsElsewhere to new other called
        → found (rename_to tree dir name number to new) other called ≡ found tree other called }
    ensures write { (tree : Tree) (number at : ℕ) (bytes : List ℕ) (count : ℕ) (after : Tree) → write tree number at bytes ≡ Ok (count, after)
        → (other : ℕ) (called : List ℕ) → found after other called ≡ found tree other called }
    ensures resize { (tree : Tree) (number size : ℕ) (after : Tree) → resize tree number size ≡ Ok after → (other : ℕ) (called : List ℕ) → found after other called ≡ found tree other called }
    ensures closed { (tree : Tree) (number : ℕ) → IsTree tree → (other : ℕ) (called : List ℕ) → found (closed tree number) other called ≡ found tree other called }
{}

/// A node that a change doesn't touch is as it was: all but the directories whose entries change, and the node that is
/// made, linked, unlinked, replaced, written or closed. A rename touches the moved node where that is a directory, whose
/// `..` follows.
pub fn other_nodes_are_as_they_were()
    ensures make { (tree : Tree) (dir : ℕ) (name : List ℕ) (content : Content) (number : ℕ) (after : Tree) → is_directory tree dir ≡ true → IsNewContent dir content
        → make tree dir name content ≡ Ok (number, after) → (other : ℕ) → other ≢ dir → other ≢ number → node_at after other ≡ node_at tree other }
    ensures unlink { (tree : Tree) (dir : ℕ) (name : List ℕ) (number : ℕ) (opened : Bool) → IsTree tree → found tree dir name ≡ Some number
        → (is_directory tree number ≡ true → (entries_at tree number ≡ []) × (opened ≡ false))
        → (other : ℕ) → other ≢ dir → other ≢ number → node_at (unlink tree dir name number opened) other ≡ node_at tree other }
    ensures link { (tree : Tree) (dir : ℕ) (name : List ℕ) (number : ℕ) (after : Tree) → is_directory tree dir ≡ true → link tree dir name number ≡ Ok after
        → (other : ℕ) → other ≢ dir → other ≢ number → node_at after other ≡ node_at tree other }
    ensures rename_over { (tree : Tree) (dir : ℕ) (name : List ℕ) (number to : ℕ) (new : List ℕ) (replaced : ℕ) (opened : Bool) → IsTree tree
        → found tree dir name ≡ Some number → found tree to new ≡ Some replaced
        → (is_directory tree replaced ≡ true → (entries_at tree replaced ≡ []) × (opened ≡ false))
        → (other : ℕ) → other ≢ dir → other ≢ to → other ≢ replaced → (other ≢ number) ⊎ (is_directory tree number ≡ false)
        → node_at (rename_over tree dir name number to new replaced opened) other ≡ node_at tree other }
    ensures rename_to { (tree : Tree) (dir : ℕ) (name : List ℕ) (number to : ℕ) (new : List ℕ) → is_directory tree dir ≡ true → is_directory tree to ≡ true
        → (other : ℕ) → other ≢ dir → other ≢ to → (other ≢ number) ⊎ (is_directory tree number ≡ false)
        → node_at (rename_to tree dir name number to new) other ≡ node_at tree other }
    ensures write { (tree : Tree) (number at : ℕ) (bytes : List ℕ) (count : ℕ) (after : Tree) → write tree number at bytes ≡ Ok (count, after)
        → (other : ℕ) → other ≢ number → node_at after other ≡ node_at tree other }
    ensures resize { (tree : Tree) (number size : ℕ) (after : Tree) → resize tree number size ≡ Ok after → (other : ℕ) → other ≢ number → node_at after other ≡ node_at tree other }
    ensures closed { (tree : Tree) (number other : ℕ) → other ≢ number → node_at (closed tree number) other ≡ node_at tree other }
{}

/// In the midst of a rename links and entries don't agree yet, but what its next step needs is there. Over a name: when
/// that has got the moved node, the node that it had is as it was; when that has lost a link, the old name still leads to
/// the moved node; and when the old entry is gone, that node is a directory exactly where it was one. To a new name in
/// another directory: when that is put, the old name still leads to the node, and so on.
pub fn a_rename_goes_step_by_step()
    ensures over { (tree : Tree) (dir : ℕ) (name : List ℕ) (number to : ℕ) (new : List ℕ) (replaced : ℕ) (opened : Bool) → IsTree tree
        → found tree dir name ≡ Some number → found tree to new ≡ Some replaced → number ≢ replaced
        → (is_directory tree replaced ≡ true → (entries_at tree replaced ≡ []) × (opened ≡ false))
        → (node_at (with_entries tree to (entry_aimed new number)) replaced ≡ node_at tree replaced)
        × (is_directory (link_dropped (with_entries tree to (entry_aimed new number)) replaced opened) dir ≡ true)
        × (found (link_dropped (with_entries tree to (entry_aimed new number)) replaced opened) dir name ≡ Some number)
        × (is_directory (with_entries (link_dropped (with_entries tree to (entry_aimed new number)) replaced opened) dir (entry_taken name)) number ≡ is_directory tree number) }
    ensures away { (tree : Tree) (dir : ℕ) (name : List ℕ) (number to : ℕ) (new : List ℕ) → found tree dir name ≡ Some number → is_directory tree to ≡ true → dir ≢ to
        → (is_directory (with_entries tree to (entry_put new number)) dir ≡ true)
        × (found (with_entries tree to (entry_put new number)) dir name ≡ Some number)
        × (is_directory (with_entries (with_entries tree to (entry_put new number)) dir (entry_taken name)) number ≡ is_directory tree number) }
{}
