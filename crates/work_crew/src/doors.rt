//! Where workers are watched, so that a test can hold one back.

/// Where a worker is with a process.
#[derive(Clone, Copy)]
pub enum Point {
    /// It was given the process.
    Picked,
    /// The process's call was answered. Where it was given back in place of that, the worker doesn't come here.
    Answered,
}

/// What workers pass on their way. It changes nothing of the run, but it may hold a worker back.
pub trait Door {
    /// A worker, by its number from 0, is at this point with a process.
    fn at(&self, worker: u32, pid: u32, point: Point);
}

/// A door that holds nobody back.
#[derive(Clone, Copy, Drop)]
pub struct OpenDoor;

impl Door for OpenDoor {
    fn at(&self, _worker: u32, _pid: u32, _point: Point) {}
}
