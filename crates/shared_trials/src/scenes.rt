//! What there is of the two processes of the tests.

/// The call that a process makes next, behind its `fork`.
#[derive(Clone, Copy)]
pub enum Next {
    Open,
    Exit,
}

/// How far the processes have come, with the next call of each; that of one that has ended too.
#[derive(Clone, Copy)]
pub enum Scene {
    /// The first process has made no call.
    Young,
    /// Its `fork` was refused.
    Alone(Next),
    /// Both live.
    Two(Next, Next),
    /// The child has exited.
    Exited(Next),
    /// The child was killed.
    Killed(Next, Next),
    /// The first process has ended, and made no child.
    Over,
    /// The first process has ended, and its child with it or before.
    BothOver(Next),
}

/// Which process a pid names.
#[derive(Clone, Copy)]
pub enum Who {
    First,
    Second,
    Nobody,
}

/// What a process does next.
#[derive(Clone, Copy)]
pub enum Act {
    Fork,
    Open,
    Exit,
}
