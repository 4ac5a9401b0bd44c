ghost use Rattle.std.specs.Prelude.{◌≡◌, ◌+◌, ◌≤◌, max};

/// How many bytes the heap has, how many are taken, the most that were taken since the last mark,
/// how many marks there were, modulo 2^64, and the most between the last two of them.
#[derive(Drop)]
pub struct Meter {
    /// How many bytes the heap has.
    pub heap: u64,
    /// How many are taken.
    pub live: u64,
    /// The most that were taken since the last mark.
    pub high: u64,
    /// How many marks there were, modulo 2^64.
    pub marks: u64,
    /// What the most was when the last mark was made.
    pub last_high: u64,
}

impl Meter {
    /// So many bytes more are taken.
    pub fn grow(&mut self, bytes: u64)
        requires { self.old.live + bytes ≤ self.old.heap }
        ensures heap { self.new.heap ≡ self.old.heap }
        ensures live { self.new.live ≡ self.old.live + bytes }
        ensures high { self.new.high ≡ max self.old.high self.new.live }
        ensures marks { self.new.marks ≡ self.old.marks }
        ensures last_high { self.new.last_high ≡ self.old.last_high }
    {
        self.live += bytes;
        self.high = self.high.max(self.live);
    }

    /// So many bytes less are taken.
    pub fn shrink(&mut self, bytes: u64)
        requires { bytes ≤ self.old.live }
        ensures heap { self.new.heap ≡ self.old.heap }
        ensures live { self.new.live + bytes ≡ self.old.live }
        ensures high { self.new.high ≡ self.old.high }
        ensures marks { self.new.marks ≡ self.old.marks }
        ensures last_high { self.new.last_high ≡ self.old.last_high }
    {
        self.live -= bytes;
    }
}
