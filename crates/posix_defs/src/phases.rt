use kabi_types::CallKind;

/// What a process has asked for: the kind of its call, and the kernel heap that the call may use, in bytes.
#[derive(Clone, Copy)]
pub struct Asked {
    pub kind: CallKind,
    pub bound: u64,
}

/// How far a process is with its next call.
#[derive(Clone, Copy)]
pub enum Phase {
    /// It has not asked for its call.
    User,
    /// Its call waits until the heap has room for its bound.
    Waiting(Asked),
    /// Its call holds its bound in reserve, and has its turn when it comes.
    Admitted(Asked),
    /// Its call would block, and holds nothing.
    Asleep(Asked),
    /// It has ended while its call was admitted, and its bound is held until the call is abandoned.
    Stranded(Asked),
    /// It has ended, and nothing of it is admitted.
    Dead,
}

/// A process that the core has to do with: it is alive, or it has ended and its call is admitted still.
#[derive(Clone, Copy)]
pub struct Task {
    pub pid: u32,
    pub phase: Phase,
}
