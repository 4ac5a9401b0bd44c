/// What a parent that waits is answered.
#[derive(Clone, Copy)]
pub enum Reaped {
    /// It has no child that it may ask for.
    NoChild,
    /// A child that it asks for is there, and none that has ended.
    Nobody,
    /// This child had ended, with this wait status, and is gone now.
    Took { pid: u32, status: u16 },
}
