//! The tree of files with its caches, which hold search trees of boxes, may cross threads.

ghost use Rattle.std.specs.Thread.{IsSend};
ghost use Rattle.memfs_ops.specs.contracts.file_tree.FileTree.{the_row as tree_row};

use memfs_ops::FileTree;

/// A tree of files may be handed to another thread.
pub fn a_tree_of_files_crosses_threads()
    ensures { IsSend tree_row }
{
    crosses::<FileTree>();
}

// What meets the bound may.
fn crosses<T: Send>()
    ensures { IsSend T.row }
{}
