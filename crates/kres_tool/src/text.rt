/// What was read of a source.
#[derive(Drop)]
pub enum Text {
    /// All that the source had, or one byte more than a script may have.
    Read(Vec<u8>),
    /// The source failed.
    Fault,
}
