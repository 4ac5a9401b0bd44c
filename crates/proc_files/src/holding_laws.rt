//! Laws of who holds the nodes of a tree. Each is the contract of a function that does nothing.

ghost use Rattle.std.specs.Prelude.{◌≡◌, ℕ, List, Option, Some};
ghost use Rattle.posix_defs.specs.Files.Descriptions.{Description, Descriptions, description_at};
ghost use Rattle.posix_defs.specs.Files.State.{Files, node_of, nodes_among};
ghost use Rattle.proc_files.specs.Names.{AreBound};

/// A table of names goes on to have each socket at its node where every socket has the name that it had.
pub fn a_table_of_names_goes_on()
    ensures { (name : ℕ → Option ℕ) (now : ℕ → Option ℕ) (names : List (Option ℕ)) → AreBound name names → ((key : ℕ) → now key ≡ name key)
        → AreBound now names }
{}

/// Which nodes descriptions open is told by the node of each, which an end of a pipe has of that pipe.
pub fn descriptions_tell_their_nodes()
    ensures { (one : Files) (other : Files) (descriptions : Descriptions)
        → ((place : ℕ) (description : Description) → description_at descriptions place ≡ Some description
        → node_of one description.target ≡ node_of other description.target)
        → nodes_among one descriptions ≡ nodes_among other descriptions }
{}
