use kabi_types::{Errno, Name27};

/// Where a path leads.
#[derive(Drop)]
pub enum Walked {
    /// To a node that the path doesn't name in a directory: its last component is `.` or `..`, or it is only slashes.
    Node(u32),
    /// To a node under the last name of the path; `slash` where a slash stands behind it, so the node is a directory.
    Named {
        parent: u32,
        name: Name27,
        node: u32,
        slash: bool,
    },
    /// To a name that is free in a directory; `slash` where a slash stands behind it.
    Free {
        parent: u32,
        name: Name27,
        slash: bool,
    },
    /// Nowhere: ENOENT where a component before the last is missing, ENOTDIR where one that has to be a directory is none.
    Fail(Errno),
}
