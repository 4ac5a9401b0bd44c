//! A store of one process, the smallest that the core takes.
ghost use Rattle.std.proofs.Common.{rules};
ghost use Rattle.std.specs.Prelude.{◌≡◌, ℕ, ◌+◌, ◌%◌, ◌^◌, ◌≤◌, false, true, []};
ghost use Rattle.posix_defs.specs.World.{boot_kept};
ghost use Rattle.shared_trials.specs.Sample.{live_at, sample, world_at};

use crate::asking::asked_of;
use kabi_types::{Cached, Call, Need, Reply};
use posix_defs::{Asked, Turned, Turner};

/// A store of one process, which asks for its pid and exits.
#[derive(Drop)]
pub struct OnePid {
    /// How many calls are behind it.
    pub place: u32,
    /// Whether it lives.
    pub lives: bool,
    /// How often the heap was marked.
    pub marks: u64,
    /// The most of the heap that was taken in the last call.
    pub high: u64,
    ghost few: { place ≤ 2 },
    ghost above: { live_at lives ≤ high },
}

/// What the process takes of the heap.
fn taken(lives: bool) -> u64
    ensures { result ≡ live_at lives }
{
    if lives { 640 } else { 128 }
}

impl OnePid {
    /// A call begins: from here on it takes no more.
    fn mark(&mut self)
        ensures place { self.new.place ≡ self.old.place }
        ensures lives { self.new.lives ≡ self.old.lives }
        ensures high { self.new.high ≡ live_at self.old.lives }
        ensures marks { self.new.marks ≡ (self.old.marks + 1) % 2 ^ 64 }
    {
        self.marks = self.marks.wrapping_add(1);
        self.high = taken(self.lives);
    }

    /// The process ends.
    fn end(&mut self)
        requires { self.old.lives ≡ true }
        ensures place { self.new.place ≡ self.old.place }
        ensures lives { self.new.lives ≡ false }
        ensures high { self.new.high ≡ self.old.high }
        ensures marks { self.new.marks ≡ self.old.marks }
    {
        self.lives = false;
    }
}

impl Turner for OnePid {
    ghost script = { λ _. sample };

    ghost stands = { λ store world. world ≡ world_at store.place store.lives boot_kept };

    ghost marks = { λ store. store.marks };

    ghost high = { λ store. store.high };

    ghost risen = { λ store. live_at store.lives };

    ghost beside = { λ _ _ _ _ _. Unit {0} };

    ghost settled = { λ _ _. false };

    ghost stirred = { λ _. [] };

    fn next(&self, _pid: u32) -> Call {
        if self.place == 0 {
            Call::Getpid
        } else {
            Call::Exit { status: 0 }
        }
    }

    fn asks(&self, pid: u32) -> Asked {
        asked_of(&self.next(pid))
    }

    fn turn(&mut self, pid: u32, _call: &Call, _need: Need) -> Turned {
        self.mark();
        if !self.alive(pid) {
            return Turned::Gone;
        }
        if self.place == 0 {
            self.place = 1;
            Turned::Done(Reply::Val(1))
        } else {
            self.end();
            Turned::Ended(0)
        }
    }

    fn refuse(&mut self, _pid: u32) {
        self.mark();
        if self.place < 2 {
            self.place += 1;
        }
    }

    fn ready(&self, _pid: u32) -> bool {
        true
    }

    fn settles(&self, _pid: u32) -> bool {
        false
    }

    fn stirred(&self) -> &[u32] {
        &[]
    }

    fn evictable(&self, _what: Cached) -> bool {
        false
    }

    fn evict(&mut self, _what: Cached) {
        self.mark();
    }

    fn victim(&self) -> Option<u32> {
        None
    }

    fn kill(&mut self, _pid: u32) {
        self.mark();
    }

    fn alive(&self, pid: u32) -> bool {
        pid == 1 && self.lives
    }

    fn last_pid(&self) -> u32 {
        1
    }

    fn live(&self) -> u64 {
        taken(self.lives)
    }

    fn reads(&self) -> u64 {
        0
    }

    ghost settled_block = { Prim.search rules };
}

/// The process at its start.
pub fn at_boot() -> OnePid
    ensures { (result.place ≡ 0) × (result.lives ≡ true) }
{
    OnePid {
        place: 0,
        lives: true,
        marks: 0,
        high: 640,
    }
}
