ghost use Rattle.std.specs.Prelude.{◌≡◌, ◌≢◌, ℕ, ◌+◌, ◌%◌, ◌^◌, ◌≤◌, Bool, true, false, not, List};
ghost use Rattle.kabi_types.specs.declared.calls.Call.{Call as CallOf};
ghost use Rattle.kabi_types.specs.declared.scripts.Script.{Script};
ghost use Rattle.posix_defs.specs.declared.turner.Turned.{Turned as Told};
ghost use Rattle.posix_defs.specs.Needs.{bound, need_of, slack};
ghost use Rattle.posix_defs.specs.Sizes.{reserve};
ghost use Rattle.posix_defs.specs.Process.{is_alive};
ghost use Rattle.posix_defs.specs.CoreState.{asked_by};
ghost use Rattle.posix_defs.specs.Plain.{call_of, last_pid};
ghost use Rattle.posix_defs.specs.Machine.{would_block};
ghost use Rattle.posix_defs.specs.Relief.{Evicts, Kills, refused_in};
ghost use Rattle.posix_defs.specs.Victim.{victim_of};
ghost use Rattle.posix_defs.specs.World.{World, can_evict, live_of};
ghost use Rattle.posix_defs.specs.Turn.{TurnsTo};
ghost use Rattle.posix_defs.specs.Minding.{HasNamed};

use crate::phases::Asked;
use kabi_types::{Cached, Call, Need, Reply};

/// What a turn of a call came to.
#[derive(Drop)]
pub enum Turned {
    /// The call is over.
    Done(Reply),
    /// A write moved so many bytes, and goes on when there is room for more.
    Part(u32),
    /// The call would block.
    Sleep,
    /// The process has ended with this wait status.
    Ended(u16),
    /// The process had ended before.
    Gone,
}

/// A store of processes, files and queues: what the core asks of it.
///
/// Contracts see a store by the worlds that it stands for: the plain machine, its account, what the caches keep and how
/// many blocks were read. Each call says what follows for each world that the store stood for.
pub trait Turner {
    /// The script that it runs. It never changes.
    ghost script: { Self → Script };

    /// The store stands for this world.
    ghost stands: { Self → World → Type 0 };

    /// How often the kernel heap was marked, modulo 2^64. Each call that may change the store marks it once.
    ghost marks: { Self → ℕ };

    /// The most bytes of kernel heap that were in use at a moment between the last two marks, those at both among them.
    ghost high: { Self → ℕ };

    /// The most bytes of kernel heap that were in use at a moment since the last mark, that at the mark among them. Between
    /// two calls it is what is in use, so wherever in a call the mark stands, the most of the whole call is `high` or that.
    ghost risen: { Self → ℕ };

    /// What a turn says beside worlds: from the store before it, by a process's call of which this was told, to the store after it. A
    /// store that has nothing to say has it always.
    ghost beside: { Self → ℕ → CallOf → Told → Self → Type 0 };

    /// The store keeps in mind of a process that its next call would block. A store may keep nothing in mind.
    ghost settled: { Self → ℕ → Bool };

    /// The processes of which the store may have changed its mind in the last call that changed it.
    ghost stirred: { Self → List ℕ };

    /// The call that a live process makes next.
    fn next(&self, pid: u32) -> Call
        requires { (world : World) × stands self.now world × (is_alive world.plain.table pid ≡ true) }
        ensures { (world : World) → stands self.now world → is_alive world.plain.table pid ≡ true
            → result ≡ call_of (script self.now) world.plain pid };

    /// What a live process asks for: the kind of its next call, and the bytes of kernel heap that this may use. It tells as much as
    /// the call does, which isn't made for it.
    fn asks(&self, pid: u32) -> Asked
        requires { (world : World) × stands self.now world × (is_alive world.plain.table pid ≡ true) }
        ensures { (world : World) → stands self.now world → is_alive world.plain.table pid ≡ true
            → result ≡ asked_by (script self.now) world.plain pid };

    /// Runs a process's call: `Sleep` exactly where it would block, `Gone` exactly where the process has ended, else
    /// what POSIX answers.
    fn turn(&mut self, pid: u32, call: &Call, need: Need) -> Turned
        requires needed { need ≡ need_of call.now }
        requires may { (world : World) × stands self.old world
            × (is_alive world.plain.table pid ≡ true → call.now ≡ call_of (script self.old) world.plain pid)
            × (live_of world + bound call.now + reserve ≤ (script self.old).heap) }
        ensures script { script self.new ≡ script self.old }
        ensures turned { (world : World) → stands self.old world
            → (after : World) × stands self.new after × TurnsTo (script self.old) world pid call.now result after }
        ensures beside { beside self.old pid call.now result self.new }
        ensures named { HasNamed (settled self.old) (settled self.new) (stirred self.new) }
        ensures marked { marks self.new ≡ (marks self.old + 1) % 2 ^ 64 }
        ensures since { (world : World) → stands self.old world → live_of world ≤ high self.new }
        ensures high { (world : World) → stands self.old world → high self.new ≤ live_of world + bound call.now + slack call.now };

    /// Answers a live process's next call ENOMEM: its bound is above what the heap can ever give.
    fn refuse(&mut self, pid: u32)
        requires { (world : World) × stands self.old world × (is_alive world.plain.table pid ≡ true) }
        ensures script { script self.new ≡ script self.old }
        ensures refused { (world : World) → stands self.old world → is_alive world.plain.table pid ≡ true
            → stands self.new (refused_in (script self.old) world pid) }
        ensures named { HasNamed (settled self.old) (settled self.new) (stirred self.new) }
        ensures marked { marks self.new ≡ (marks self.old + 1) % 2 ^ 64 }
        ensures since { (world : World) → stands self.old world → live_of world ≤ high self.new }
        ensures high { (world : World) → stands self.old world → high self.new ≤ live_of world };

    /// Whether a live process's next call wouldn't block now.
    fn ready(&self, pid: u32) -> bool
        requires { (world : World) × stands self.now world × (is_alive world.plain.table pid ≡ true) }
        ensures { (world : World) → stands self.now world → is_alive world.plain.table pid ≡ true
            → result ≡ not (would_block (script self.now) world.plain pid) };

    /// Whether it is kept in mind of a process that its next call would block.
    fn settles(&self, pid: u32) -> bool
        ensures { result ≡ settled self.now pid };

    /// Of which processes the store may have changed its mind in the last call that changed it: each of whom it has is named.
    fn stirred(&self) -> &[u32]
        ensures { result.now ≡ stirred self.now };

    /// Whether a cache keeps something that isn't pinned.
    fn evictable(&self, what: Cached) -> bool
        ensures { (world : World) → stands self.now world → result ≡ can_evict world.plain world.kept what };

    /// Drops an object that isn't pinned from a cache; where all are, or none is kept, nothing changes.
    fn evict(&mut self, what: Cached)
        requires { (world : World) × stands self.old world }
        ensures script { script self.new ≡ script self.old }
        ensures evicted { (world : World) → stands self.old world → can_evict world.plain world.kept what ≡ true
            → (after : World) × stands self.new after × Evicts world what after }
        ensures kept { (world : World) → stands self.old world → can_evict world.plain world.kept what ≡ false
            → stands self.new world }
        ensures named { HasNamed (settled self.old) (settled self.new) (stirred self.new) }
        ensures marked { marks self.new ≡ (marks self.old + 1) % 2 ^ 64 }
        ensures since { (world : World) → stands self.old world → live_of world ≤ high self.new }
        ensures high { (world : World) → stands self.old world → high self.new ≤ live_of world };

    /// The process that is to be killed where heap has to be freed; None exactly where none but the first is alive.
    fn victim(&self) -> Option<u32>
        ensures { (world : World) → stands self.now world
            → result ≡ victim_of (script self.now).policy world.plain world.account };

    /// Ends a live process other than the first, by signal 9; where that isn't one, nothing changes.
    fn kill(&mut self, pid: u32)
        requires { (world : World) × stands self.old world }
        ensures script { script self.new ≡ script self.old }
        ensures killed { (world : World) → stands self.old world → is_alive world.plain.table pid ≡ true → pid ≢ 1
            → (after : World) × stands self.new after × Kills world pid after }
        ensures gone { (world : World) → stands self.old world → is_alive world.plain.table pid ≡ false
            → stands self.new world }
        ensures first { (world : World) → stands self.old world → pid ≡ 1 → stands self.new world }
        ensures named { HasNamed (settled self.old) (settled self.new) (stirred self.new) }
        ensures marked { marks self.new ≡ (marks self.old + 1) % 2 ^ 64 }
        ensures since { (world : World) → stands self.old world → live_of world ≤ high self.new }
        ensures high { (world : World) → stands self.old world → high self.new ≤ live_of world + reserve };

    /// Whether a process is there and has not ended.
    fn alive(&self, pid: u32) -> bool
        ensures { (world : World) → stands self.now world → result ≡ is_alive world.plain.table pid };

    /// The pid of the youngest process ever made.
    fn last_pid(&self) -> u32
        ensures { (world : World) → stands self.now world → result ≡ last_pid world.plain };

    /// How many bytes of kernel heap are in use.
    fn live(&self) -> u64
        ensures bytes { (world : World) → stands self.now world → result ≡ live_of world }
        ensures rests { (world : World) → stands self.now world → live_of world ≡ risen self.now };

    /// How many blocks were read from the disk since boot; it stands still at its type's end.
    fn reads(&self) -> u64
        ensures { (world : World) → stands self.now world → result ≡ world.reads };

    /// What is kept in mind is so: the next call of such a process would block, where it is alive.
    ghost settled_block: { (store : Self) (world : World) (pid : ℕ) → stands store world → settled store pid ≡ true → is_alive world.plain.table pid ≡ true
        → would_block (script store) world.plain pid ≡ true };
}
