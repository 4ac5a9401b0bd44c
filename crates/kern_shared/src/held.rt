//! A process that a pass holds, as the kernel's value keeps it.

/// A process that a pass holds, and how many bytes its call may need. The call stays, also where the process ends.
#[derive(Clone, Copy)]
pub struct Held {
    pub pid: u32,
    pub bound: u64,
}
