/// What a call may use of the kernel heap, as the price list has it. All numbers are bytes.
#[derive(Clone, Copy)]
pub enum Price {
    /// So many, whatever the operands.
    Always(u64),
    /// So many for each group of 64 page entries that the pages which the call maps may lie in.
    Mapped(u64),
    /// So many for each page that the call puts bytes into, and so many more.
    Touched(u64, u64),
    /// The greater of two: so many where the call writes to a file, or for a queue so many for each chunk of 512 bytes of
    /// what it still has to move, of which a queue takes at most 4096.
    Moved(u64, u64),
    /// So many where the call makes a further descriptor, which of the commands of `fcntl` F_DUPFD does alone.
    Copied(u64),
}
