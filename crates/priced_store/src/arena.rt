//! The heap: bytes that are counted, and the purse that a call pays from.
ghost use Rattle.std.specs.Prelude.{◌≡◌, ◌+◌, ◌%◌, ◌^◌, ◌≤◌, max};

/// What a call may still take, in bytes.
#[derive(Drop)]
pub struct Purse {
    /// So much of it is left.
    pub left: u64,
}

/// A heap of so many bytes.
#[derive(Drop)]
pub struct Arena {
    pub heap: u64,
    /// How many of them are in use.
    pub used: u64,
    /// The most that were in use at a moment since the last mark.
    pub risen: u64,
    /// The most that were at a moment between the last two marks.
    pub high: u64,
    /// How often it was marked.
    pub marks: u64,
    ghost above: { used ≤ risen },
}

impl Arena {
    /// Makes an object of so many bytes, for which the purse pays. It can't fail.
    pub fn make(&mut self, purse: &mut Purse, bytes: u64)
        requires room { self.old.used + purse.old.left ≤ self.old.heap }
        requires paid { bytes ≤ purse.old.left }
        ensures heap { self.new.heap ≡ self.old.heap }
        ensures used { self.new.used ≡ self.old.used + bytes }
        ensures left { purse.new.left + bytes ≡ purse.old.left }
        ensures risen { self.new.risen ≡ max self.old.risen self.new.used }
        ensures marks { self.new.marks ≡ self.old.marks }
    {
        purse.left -= bytes;
        self.used += bytes;
        self.risen = self.risen.max(self.used);
    }

    /// Frees an object of so many bytes.
    pub fn free(&mut self, bytes: u64)
        requires { bytes ≤ self.old.used }
        ensures heap { self.new.heap ≡ self.old.heap }
        ensures used { self.new.used + bytes ≡ self.old.used }
        ensures risen { self.new.risen ≡ self.old.risen }
        ensures marks { self.new.marks ≡ self.old.marks }
    {
        self.used -= bytes;
    }

    /// A call is over: the most is counted anew, from what is in use now.
    pub fn mark(&mut self)
        ensures heap { self.new.heap ≡ self.old.heap }
        ensures used { self.new.used ≡ self.old.used }
        ensures risen { self.new.risen ≡ self.old.used }
        ensures high { self.new.high ≡ self.old.risen }
        ensures marks { self.new.marks ≡ (self.old.marks + 1) % 2 ^ 64 }
    {
        self.high = self.risen;
        self.risen = self.used;
        self.marks = self.marks.wrapping_add(1);
    }
}
