//! What is done with a cache, and what is told.

/// A look at a cache and its heap.
pub enum Look {
    /// What is cached of an object: of a block its first byte, of a name its node, of a node its size.
    Get(u8),
    Has(u8),
    /// Whether it is cached, by a touch that makes it the warmest.
    Touch(u8),
    /// Whether it has a slot.
    Slot(u8),
    /// How often a node is held.
    Pins(u8),
    IsFull,
    IsEvictable,
    /// The most bytes of the heap that were in use.
    High,
}

/// A change that no purse pays for. The purse that was begun is given up.
pub enum Change {
    Set(u8, u8),
    /// The same, of what may be cached or not.
    Renew(u8, u8),
    Forget(u8),
    Evict,
}

pub enum Step {
    /// A purse of so many objects is begun.
    Begin(u32),
    Fill(u8),
    LetGo(u8),
    /// All that was filled goes; told is how many are left in the purse.
    DropFills,
    /// How many are left in the purse.
    Left,
    Pin(u8),
    Unpin(u8),
    See(Look),
    Do(Change),
}

#[derive(Clone, Copy, PartialEq)]
pub enum Answer {
    Done,
    Is(bool),
    Found(Option<u32>),
    Count(u32),
    Bytes(u64),
    /// This cache has no such call.
    Nothing,
}

/// A step, what is told, and the bytes of the heap then.
pub type Row = (Step, Answer, u64);

pub const YES: Answer = Answer::Is(true);

pub const NO: Answer = Answer::Is(false);

pub const NONE: Answer = Answer::Found(None);
