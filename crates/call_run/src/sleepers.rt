//! What the store keeps in mind of calls that sleep: whether each would still block, and through which numbers bytes were moved that it
//! doesn't wait for. So a turn has few of them looked at again: those that wait for what it touched.

ghost use Rattle.std.specs.Prelude.{◌≡◌, ◌⊎◌, ◌≤◌, ◌<◌, ◌+◌, [], ℕ, Bool, None, Some, length, map, remove, slice_set, true, false, not};
ghost use Rattle.std.specs.List.{AllByRecursion};
ghost use Rattle.arrayvec.specs.ArrayVec.{array_vec_len};
ghost use Rattle.kabi_types.specs.declared.calls.Call.{Call as CallOf};
ghost use Rattle.kabi_types.specs.declared.scripts.Script.{Script};
ghost use Rattle.lock_calls.specs.Waiting.{AreKnown};
ghost use Rattle.machine_laws.specs.Reached.{IsReached};
ghost use Rattle.posix_defs.specs.Machine.{would_block};
ghost use Rattle.posix_defs.specs.Minding.{HasNamed};
ghost use Rattle.posix_defs.specs.Process.{is_alive};
ghost use Rattle.posix_defs.specs.Relief.{refused_in};
ghost use Rattle.posix_defs.specs.World.{World};
ghost use Rattle.posix_defs.specs.declared.turner.Turned.{Turned as TurnedOf};
ghost use Rattle.store_objects.specs.Standing.{StandsFor};
ghost use Rattle.waking_laws.specs.Waking.{gives_number, moves_through, wakes_nobody};
ghost use Rattle.call_run.specs.Sleepers.{AreFewer, AreMinded, AreNear, AreRising, AreTrulyTold, HasBegun, IsBehind, IsDoubted, IsLookedAt, IsNear, IsOf, IsPassed, NamesMore, NamesOne, StandsAsleep, begun, came_of, channel_at, doubted, is_settled, is_sleep, lain, place_in, stands_in, stirs_by, stirs_of, told_of, with_sleeper, without};
ghost use Rattle.call_run.specs.declared.sleepers.Came.TheVariants.{Part};
ghost use Rattle.call_run.specs.declared.sleepers.Stirs.TheVariants.{Through};

use crate::calls::would_block;
use crate::touching::is_apart;
use crate::turns::waits_for;
use arrayvec::ArrayVec;
use kabi_types::{Call, Reply, Script};
use lock_calls::Waits;
use posix_defs::Turned;
use std::marker::Model;
use store_objects::Objects;

/// How many channels there are.
const CHANNELS: usize = 32;

/// So few sleepers are all asked, whatever was touched.
const FEW: usize = 4;

/// A process whose last turn left its call asleep.
#[derive(Clone, Copy, Default)]
pub struct Sleeper {
    pid: u32,
    // Its next call would block.
    blocks: bool,
    // By the place of a channel: what its call waits for isn't what that channel moves bytes of.
    apart: [bool; CHANNELS],
}

/// A number of a process through which bytes were moved.
#[derive(Clone, Copy)]
pub struct Channel {
    pid: u32,
    fd: i64,
    // So it is of all sleepers.
    all_apart: bool,
}

/// What a turn came to, as far as it tells whom it may have woken.
#[derive(Clone, Copy)]
enum Came {
    /// Nothing was done, or it failed.
    Nothing,
    /// The call sleeps.
    Sleep,
    /// A part was done, and the rest sleeps.
    Part,
    /// The call was done.
    Done,
    /// The process has ended.
    End,
}

/// Whom a turn may have woken, or kept from going on.
enum Stirs {
    /// Nobody.
    Nobody,
    /// Those who wait for what this number of the caller is open on.
    Through(i64),
    /// All are stale.
    Everybody,
}

/// What is kept in mind of calls that sleep, by the store. It needs no memory of the host's.
#[derive(Drop)]
pub struct Sleepers {
    // By rising pid.
    told: ArrayVec<Sleeper, 64>,
    // Each at the place that its process and its number give; the later one takes it.
    channels: [Option<Channel>; CHANNELS],
    // There may be a channel.
    is_open: bool,
    // Of whom the last turn, refusal, kill or eviction has changed whether it is kept in mind that they would block.
    stirred: ArrayVec<u32, 128>,
}

impl Model for Sleepers {
    ghost use Rattle.call_run.specs.Sleepers.{AreKeptAsleep};
    ghost use Rattle.call_run.specs.Stores.{SleepersView};

    ghost Value = { SleepersView };

    ghost view = { λ sleepers. record {
      told = sleepers.told.items;
      channels = sleepers.channels;
      is_open = sleepers.is_open;
      stirred = sleepers.stirred.items;
    } };

    ghost invariant = { λ sleepers. AreKeptAsleep sleepers.told.items sleepers.channels sleepers.is_open };
}

/// Whether a turn of this call, whatever it came to, changes nothing that another process's call may wait for: no queue, no child that
/// is there, and of a description nothing but its offset. An open may have opened a FIFO, unless none is open behind it.
fn wakes_nobody(call: &Call, no_fifo: bool) -> bool
    ensures { result ≡ wakes_nobody no_fifo call.now }
{
    if let Call::OpenFile { .. } = call {
        return no_fifo;
    }
    matches!(
        call,
        Call::Getpid
            | Call::Getppid
            | Call::SchedYield
            | Call::Fork
            | Call::Mmap { .. }
            | Call::Munmap { .. }
            | Call::Store { .. }
            | Call::Load { .. }
            | Call::Dup { .. }
            | Call::Pread { .. }
            | Call::Pwrite { .. }
            | Call::Lseek { .. }
            | Call::Readdir { .. }
            | Call::Ftruncate { .. }
            | Call::Fstat { .. }
            | Call::Stat { .. }
            | Call::Chdir { .. }
            | Call::Mkdir { .. }
            | Call::Rmdir { .. }
            | Call::Unlink { .. }
            | Call::Link { .. }
            | Call::Rename { .. }
            | Call::Pipe
            | Call::Socket
            | Call::Bind { .. }
            | Call::Poll { .. }
            | Call::Signal { .. }
            | Call::Mkfifo { .. }
            | Call::Getlk { .. }
    )
}

/// Whether a call that wakes nobody gives its caller a number.
fn gives_number(call: &Call) -> bool
    ensures { result ≡ gives_number call.now }
{
    matches!(
        call,
        Call::OpenFile { .. } | Call::Dup { .. } | Call::Pipe | Call::Socket
    )
}

/// Whom a call that was done, or a part of it, may have woken: those who wait for what it moved bytes of; nobody, where it is such a call; else
/// who knows whom.
fn stirs_by(call: &Call, nobody: bool) -> Stirs
    ensures { result ≡ stirs_by (moves_through call.now) nobody }
{
    match call {
        Call::Read { fd, .. } | Call::Write { fd, .. } => Stirs::Through(*fd),
        _ if nobody => Stirs::Nobody,
        _ => Stirs::Everybody,
    }
}

/// What a turn came to.
fn came_of(turned: &Turned) -> Came
    ensures { result ≡ came_of turned.now }
{
    match turned {
        Turned::Gone | Turned::Done(Reply::Fail(_)) => Came::Nothing,
        Turned::Sleep => Came::Sleep,
        Turned::Part(_) => Came::Part,
        Turned::Done(_) => Came::Done,
        Turned::Ended(_) => Came::End,
    }
}

/// Whom a turn of this call, which came to this, may have woken, or kept from going on, where no lock is held. This is the one place that
/// says so: what makes a sleeper depend on more than queues, children and descriptions has its line here, or is asked before.
fn stirs_of(call: &Call, came: Came, no_fifo: bool) -> Stirs
    ensures { result ≡ stirs_of no_fifo call.now came }
{
    match came {
        Came::Nothing | Came::Sleep => Stirs::Nobody,
        Came::Part => stirs_by(call, false),
        Came::Done => stirs_by(call, wakes_nobody(call, no_fifo)),
        Came::End => Stirs::Everybody,
    }
}

/// Whether a turn that came to this leaves its call asleep.
fn is_sleep(turned: &Turned) -> bool
    ensures { result ≡ is_sleep turned.now }
{
    matches!(turned, Turned::Sleep | Turned::Part(_))
}

/// Whether a live process's next call wouldn't block now. It stands by itself, since it is large and asked at several places.
#[inline(never)]
pub fn goes_on(script: &Script, objects: &Objects, waits: &mut Option<Waits>, pid: u32) -> bool
    requires stands { (world : World) × StandsFor script.now objects.now world × (is_alive world.plain.table pid ≡ true) }
    requires known { AreKnown script.now objects.now waits.old }
    ensures known { AreKnown script.now objects.now waits.new }
    ensures goes { (world : World) → StandsFor script.now objects.now world → IsReached script.now world.plain → is_alive world.plain.table pid ≡ true
        → result ≡ not (would_block script.now world.plain pid) }
{
    let wait = waits_for(script, objects, pid);
    !would_block(script, objects, waits, pid, wait)
}

/// The place of a process among sleepers; else, where it would stand. They stand by rising pid, mostly near the place that the pid numbers.
fn place_of(told: &[Sleeper], pid: u32) -> usize
    requires { AreRising 0 told.now }
    ensures place { result ≡ place_in told.now pid }
    ensures within { result ≤ length told.now }
{
    let mut place = told.len().min(pid as usize);
    while place > 0 {
        if told[place - 1].pid < pid {
            return place;
        }
        place -= 1;
    }
    0
}

/// Whether a process stands at a place among sleepers.
fn stands_at(told: &[Sleeper], place: usize, pid: u32) -> bool
    ensures stands { result ≡ stands_in told.now place pid }
    ensures within { result ≡ true → place < length told.now }
{
    if place >= told.len() {
        return false;
    }
    told[place].pid == pid
}

/// The place of a number's channel.
fn channel_of(pid: u32, fd: i64) -> usize
    ensures { result < 32 }
{
    (pid as usize % 8 * 4 + (fd & 3) as usize) % CHANNELS
}

/// Whether this is the channel of a process's number.
fn is_of(channel: Option<Channel>, pid: u32, fd: i64) -> bool
    ensures { result ≡ true → IsOf channel pid fd }
{
    match channel {
        Some(it) => it.pid == pid && it.fd == fd,
        None => false,
    }
}

/// Whether this is the channel of a process's number, and all sleepers are apart from it.
fn is_passed(channel: Option<Channel>, pid: u32, fd: i64) -> bool
    ensures { result ≡ true → IsPassed channel pid fd }
{
    match channel {
        Some(it) => it.all_apart && it.pid == pid && it.fd == fd,
        None => false,
    }
}

/// Asks again whether a sleeper that is alive would block.
fn ask(
    script: &Script,
    objects: &Objects,
    waits: &mut Option<Waits>,
    sleeper: &mut Sleeper,
    stirred: &mut ArrayVec<u32, 128>,
)
    requires alive { (world : World) × StandsFor script.now objects.now world × (is_alive world.plain.table sleeper.old.pid ≡ true) }
    requires room { array_vec_len stirred.old < 128 }
    requires known { AreKnown script.now objects.now waits.old }
    ensures known { AreKnown script.now objects.now waits.new }
    ensures same { sleeper.new ≡ record sleeper.old { blocks = sleeper.new.blocks } }
    ensures blocks { (world : World) → StandsFor script.now objects.now world → IsReached script.now world.plain → is_alive world.plain.table sleeper.old.pid ≡ true
        → would_block script.now world.plain sleeper.old.pid ≡ sleeper.new.blocks }
    ensures named { NamesOne stirred.old.items sleeper.old sleeper.new stirred.new.items }
    ensures room { array_vec_len stirred.new ≤ array_vec_len stirred.old + 1 }
{
    let blocks = !goes_on(script, objects, waits, sleeper.pid);
    if blocks != sleeper.blocks {
        sleeper.blocks = blocks;
        stirred.push(sleeper.pid);
    }
}

/// Forgets a sleeper who has ended.
fn forget_at(told: &mut ArrayVec<Sleeper, 64>, stirred: &mut ArrayVec<u32, 128>, place: usize)
    requires within { place < array_vec_len told.old }
    requires rising { AreRising 0 told.old.items }
    requires room { array_vec_len stirred.old < 128 }
    ensures items { told.new.items ≡ remove told.old.items place }
    ensures named { NamesMore told.old.items stirred.old.items told.new.items stirred.new.items }
    ensures room { array_vec_len stirred.new ≤ array_vec_len stirred.old + 1 }
{
    let gone = told.remove(place);
    if gone.blocks {
        stirred.push(gone.pid);
    }
}

/// Asks again the sleeper at a place, or forgets him, where he has ended.
fn look_at(
    script: &Script,
    objects: &Objects,
    waits: &mut Option<Waits>,
    told: &mut ArrayVec<Sleeper, 64>,
    stirred: &mut ArrayVec<u32, 128>,
    place: usize,
)
    requires stands { (world : World) × StandsFor script.now objects.now world }
    requires within { place < array_vec_len told.old }
    requires rising { AreRising 0 told.old.items }
    requires room { array_vec_len stirred.old < 128 }
    requires known { AreKnown script.now objects.now waits.old }
    ensures known { AreKnown script.now objects.now waits.new }
    ensures looked { IsLookedAt script.now objects.now told.old.items place told.new.items }
    ensures named { NamesMore told.old.items stirred.old.items told.new.items stirred.new.items }
    ensures room { array_vec_len stirred.new ≤ array_vec_len stirred.old + 1 }
{
    if objects.runs(told[place].pid) {
        ask(script, objects, waits, &mut told[place], stirred);
    } else {
        forget_at(told, stirred, place);
    }
}

/// Asks again all sleepers, and forgets those who have ended.
#[inline(never)]
fn ask_each(
    script: &Script,
    objects: &Objects,
    told: &mut ArrayVec<Sleeper, 64>,
    stirred: &mut ArrayVec<u32, 128>,
)
    requires stands { (world : World) × StandsFor script.now objects.now world }
    requires rising { AreRising 0 told.old.items }
    requires room { array_vec_len stirred.old ≤ 64 }
    ensures rising { AreRising 0 told.new.items }
    ensures truly { AreTrulyTold script.now objects.now told.new.items }
    ensures fewer { AreFewer told.old.items told.new.items }
    ensures named { NamesMore told.old.items stirred.old.items told.new.items stirred.new.items }
    ensures room { array_vec_len stirred.new ≤ array_vec_len stirred.old + 64 }
{
    let mut waits = None;
    let mut place = told.len();
    while place > 0 {
        place -= 1;
        look_at(script, objects, &mut waits, told, stirred, place);
    }
}

/// It is told of a sleeper whether he is apart from the channel of this place.
fn tell_apart(sleeper: &mut Sleeper, channel: usize, apart: bool)
    requires { channel < 32 }
    ensures { sleeper.new ≡ record sleeper.old { apart = slice_set sleeper.old.apart channel apart } }
{
    sleeper.apart[channel] = apart;
}

/// Asks again a sleeper of whom it isn't told that he is apart from the channel of a number, and who isn't. It answers whether he is such a
/// one.
fn look_near(
    script: &Script,
    objects: &Objects,
    sleeper: &mut Sleeper,
    stirred: &mut ArrayVec<u32, 128>,
    pid: u32,
    fd: i64,
    channel: usize,
) -> bool
    requires alive { (world : World) × StandsFor script.now objects.now world × (is_alive world.plain.table sleeper.old.pid ≡ true) × (is_alive world.plain.table pid ≡ true) }
    requires channel { channel < 32 }
    requires room { array_vec_len stirred.old < 128 }
    ensures near { IsNear script.now objects.now pid fd channel sleeper.old sleeper.new result }
    ensures named { NamesOne stirred.old.items sleeper.old sleeper.new stirred.new.items }
    ensures room { array_vec_len stirred.new ≤ array_vec_len stirred.old + 1 }
{
    if sleeper.apart[channel] {
        return false;
    }
    if is_apart(script, objects, sleeper.pid, pid, fd) {
        tell_apart(sleeper, channel, true);
        return false;
    }
    ask(script, objects, &mut None, sleeper, stirred);
    true
}

/// The same of all sleepers. It answers whether one is such a one.
fn ask_near(
    script: &Script,
    objects: &Objects,
    told: &mut [Sleeper],
    stirred: &mut ArrayVec<u32, 128>,
    pid: u32,
    fd: i64,
    channel: usize,
) -> bool
    requires alive { (world : World) × StandsFor script.now objects.now world × AllByRecursion (λ sleeper. is_alive world.plain.table sleeper.pid ≡ true) told.old
        × (is_alive world.plain.table pid ≡ true) }
    requires rising { AreRising 0 told.old }
    requires channel { channel < 32 }
    requires room { array_vec_len stirred.old + length told.old ≤ 128 }
    ensures near { AreNear script.now objects.now pid fd channel told.old told.new result }
    ensures named { NamesMore told.old stirred.old.items told.new stirred.new.items }
    ensures room { array_vec_len stirred.new ≤ array_vec_len stirred.old + length told.old }
{
    let mut near = false;
    let mut place = told.len();
    while place > 0 {
        place -= 1;
        if look_near(script, objects, &mut told[place], stirred, pid, fd, channel) {
            near = true;
        }
    }
    near
}

/// It isn't told of anybody any more that he is apart from the channel of this place.
fn begin_channel(told: &mut [Sleeper], channel: usize)
    requires { channel < 32 }
    ensures { told.new ≡ map (begun channel) told.old }
{
    for sleeper in told.iter_mut() {
        tell_apart(sleeper, channel, false);
    }
}

/// The channel, where it isn't known of all that they are apart from it.
fn doubted(channel: Option<Channel>) -> Option<Channel>
    ensures { result ≡ doubted channel }
{
    match channel {
        Some(it) => Some(Channel {
            pid: it.pid,
            fd: it.fd,
            all_apart: false,
        }),
        None => None,
    }
}

/// So are all channels.
fn doubt_all(channels: &mut [Option<Channel>])
    ensures { channels.new ≡ map doubted channels.old }
{
    for channel in channels.iter_mut() {
        *channel = doubted(*channel);
    }
}

impl Sleepers {
    /// Nobody sleeps.
    pub fn new() -> Sleepers
        ensures told { result.told ≡ [] }
        ensures channels { (place : ℕ) → channel_at result.channels place ≡ None }
    {
        Sleepers {
            told: ArrayVec::new(),
            channels: [None; CHANNELS],
            is_open: false,
            stirred: ArrayVec::new(),
        }
    }

    /// Whether a process's next call would block, where that is kept in mind.
    pub fn told(&self, pid: u32) -> Option<bool>
        ensures { result ≡ told_of self.now.told pid }
    {
        let place = place_of(self.told.as_slice(), pid);
        if stands_at(self.told.as_slice(), place, pid) {
            Some(self.told[place].blocks)
        } else {
            None
        }
    }

    /// Whether it is kept in mind of a process that its next call would block.
    pub fn settles(&self, pid: u32) -> bool
        ensures { result ≡ is_settled self.now.told pid }
    {
        self.told(pid).unwrap_or(false)
    }

    /// Of whom that may have changed last.
    pub fn stirred(&self) -> &[u32]
        ensures { result.now ≡ self.now.stirred }
    {
        self.stirred.as_slice()
    }

    /// A process has a turn, and doesn't sleep any more.
    fn get_up(&mut self, pid: u32)
        requires { self.old.stirred ≡ [] }
        ensures told { self.new.told ≡ without self.old.told pid }
        ensures channels { self.new.channels ≡ self.old.channels }
        ensures named { NamesMore self.old.told [] self.new.told self.new.stirred }
        ensures few { length self.new.stirred ≤ 1 }
    {
        let place = place_of(self.told.as_slice(), pid);
        if stands_at(self.told.as_slice(), place, pid) {
            forget_at(&mut self.told, &mut self.stirred, place);
        }
    }

    /// Somebody will sleep of whom no channel knows. Where nobody did, the processes of channels may have ended.
    fn doubt(&mut self)
        ensures told { self.new.told ≡ self.old.told }
        ensures stirred { self.new.stirred ≡ self.old.stirred }
        ensures channels { (place : ℕ) → IsDoubted self.old.told (channel_at self.old.channels place) (channel_at self.new.channels place) }
    {
        if self.told.is_empty() {
            self.forget_channels();
        } else if self.is_open {
            doubt_all(&mut self.channels);
        }
    }

    /// A process whose turn left its call asleep stands among those who sleep, and would block or not. Where 64 are there, which never is, it
    /// isn't kept in mind.
    #[inline(never)]
    fn lie_down(&mut self, pid: u32, blocks: bool)
        requires some { 0 < pid }
        requires apart { told_of self.old.told pid ≡ None }
        requires room { length self.old.stirred < 128 }
        ensures told { (self.new.told ≡ with_sleeper self.old.told (lain pid blocks)) ⊎ (self.new.told ≡ self.old.told) }
        ensures channels { (place : ℕ) → IsDoubted self.old.told (channel_at self.old.channels place) (channel_at self.new.channels place) }
        ensures named { NamesMore self.old.told self.old.stirred self.new.told self.new.stirred }
    {
        self.doubt();
        if self.told.len() == 64 {
            return;
        }
        let place = place_of(self.told.as_slice(), pid);
        let apart = [false; CHANNELS];
        self.told.insert(place, Sleeper { pid, blocks, apart });
        if blocks {
            self.stirred.push(pid);
        }
    }

    /// A process's call would block still. Where it is kept in mind since an earlier turn, it is the same call.
    fn sleep_on(&mut self, pid: u32)
        requires asleep { (script : Script) × (world : World) × StandsAsleep script world pid self.old.told self.old.channels }
        requires none { self.old.stirred ≡ [] }
        ensures minded { (script : Script) (world : World) → StandsAsleep script world pid self.old.told self.old.channels → AreMinded script world.plain self.new.told self.new.channels }
        ensures named { HasNamed (is_settled self.old.told) (is_settled self.new.told) self.new.stirred }
    {
        if self.told(pid).is_none() {
            self.lie_down(pid, true);
        }
    }

    /// Nothing is known any more of numbers through which bytes were moved.
    fn forget_channels(&mut self)
        ensures told { self.new.told ≡ self.old.told }
        ensures stirred { self.new.stirred ≡ self.old.stirred }
        ensures channels { (place : ℕ) → channel_at self.new.channels place ≡ None }
    {
        if self.is_open {
            self.channels = [None; CHANNELS];
            self.is_open = false;
        }
    }

    /// All are stale.
    #[inline(never)]
    fn ask_all(&mut self, script: &Script, objects: &Objects)
        requires stands { (world : World) × StandsFor script.now objects.now world }
        requires room { length self.old.stirred ≤ 1 }
        ensures minded { (world : World) → StandsFor script.now objects.now world → IsReached script.now world.plain → AreMinded script.now world.plain self.new.told self.new.channels }
        ensures fewer { AreFewer self.old.told self.new.told }
        ensures named { NamesMore self.old.told self.old.stirred self.new.told self.new.stirred }
        ensures room { length self.new.stirred ≤ 65 }
    {
        self.forget_channels();
        ask_each(script, objects, &mut self.told, &mut self.stirred);
    }

    /// Nobody is told to be apart from the channel of a number, unless it stands there already.
    fn begin(&mut self, place: usize, pid: u32, fd: i64)
        requires { place < 32 }
        ensures same { self.new ≡ record self.old { told = self.new.told } }
        ensures told { HasBegun (channel_at self.old.channels place) pid fd place self.old.told self.new.told }
    {
        if !is_of(self.channels[place], pid, fd) {
            begin_channel(self.told.as_mut_slice(), place);
        }
    }

    /// Those who aren't apart from the channel of a number are asked, and it is kept.
    fn ask_there(&mut self, script: &Script, objects: &Objects, pid: u32, fd: i64, place: usize)
        requires alive { (world : World) × StandsFor script.now objects.now world
            × AllByRecursion (λ sleeper. is_alive world.plain.table sleeper.pid ≡ true) self.old.told × (is_alive world.plain.table pid ≡ true) }
        requires place { place < 32 }
        requires room { length self.old.stirred ≤ 1 }
        ensures near { (near : Bool) × AreNear script.now objects.now pid fd place self.old.told self.new.told near
            × (self.new.channels ≡ slice_set self.old.channels place (Some (record { pid = pid; fd = fd; all_apart = not near }))) }
        ensures named { NamesMore self.old.told self.old.stirred self.new.told self.new.stirred }
        ensures room { length self.new.stirred ≤ 65 }
    {
        let (told, stirred) = (self.told.as_mut_slice(), &mut self.stirred);
        let near = ask_near(script, objects, told, stirred, pid, fd, place);
        self.is_open = true;
        self.channels[place] = Some(Channel {
            pid,
            fd,
            all_apart: !near,
        });
    }

    /// What a number is open on was touched: those who wait for it are asked.
    #[inline(never)]
    fn touch(&mut self, script: &Script, objects: &Objects, pid: u32, fd: i64)
        requires behind { (old new : World) × (call : CallOf) × (told : TurnedOf) × IsBehind script.now objects.now old new pid call told self.old.told self.old.channels
            × (stirs_of false call (came_of told) ≡ Through fd) }
        requires up { told_of self.old.told pid ≡ None }
        requires free { objects.now.locks ≡ None }
        requires room { length self.old.stirred ≤ 1 }
        ensures minded { (old new : World) (call : CallOf) (told : TurnedOf) → IsBehind script.now objects.now old new pid call told self.old.told self.old.channels
            → stirs_of false call (came_of told) ≡ Through fd → AreMinded script.now new.plain self.new.told self.new.channels }
        ensures up { told_of self.new.told pid ≡ None }
        ensures named { NamesMore self.old.told self.old.stirred self.new.told self.new.stirred }
        ensures room { length self.new.stirred ≤ 65 }
    {
        if self.told.len() <= FEW {
            self.ask_all(script, objects);
            return;
        }
        let place = channel_of(pid, fd);
        if is_passed(self.channels[place], pid, fd) {
            return;
        }
        self.begin(place, pid, fd);
        self.ask_there(script, objects, pid, fd, place);
    }

    /// Asks those whom a turn of another may have woken, or kept from going on.
    fn stir(&mut self, script: &Script, objects: &Objects, pid: u32, call: &Call, came: Came)
        requires behind { (old new : World) × (told : TurnedOf) × IsBehind script.now objects.now old new pid call.now told self.old.told self.old.channels × (came ≡ came_of told) }
        requires up { told_of self.old.told pid ≡ None }
        requires room { length self.old.stirred ≤ 1 }
        ensures minded { (old new : World) (told : TurnedOf) → IsBehind script.now objects.now old new pid call.now told self.old.told self.old.channels → came ≡ came_of told
            → AreMinded script.now new.plain self.new.told self.new.channels }
        ensures up { told_of self.new.told pid ≡ None }
        ensures named { NamesMore self.old.told self.old.stirred self.new.told self.new.stirred }
        ensures room { length self.new.stirred ≤ 65 }
    {
        if !objects.locks.is_empty() {
            // Whoever goes on may stand at a call that closes a circle.
            self.ask_all(script, objects);
            return;
        }
        match stirs_of(call, came, objects.fifos.is_empty()) {
            Stirs::Nobody => {
                if gives_number(call) {
                    self.forget_channels();
                }
            }
            Stirs::Through(fd) => self.touch(script, objects, pid, fd),
            Stirs::Everybody => self.ask_all(script, objects),
        }
    }

    /// A process's call doesn't sleep on: those are asked whom its turn may have woken.
    // By itself it takes 10 to 15 instructions a turn more.
    #[inline(always)]
    fn go_on(&mut self, script: &Script, objects: &Objects, pid: u32, call: &Call, came: Came)
        requires behind { (old new : World) × (told : TurnedOf) × IsBehind script.now objects.now old new pid call.now told self.old.told self.old.channels × (came ≡ came_of told) }
        requires none { self.old.stirred ≡ [] }
        ensures minded { (old new : World) (told : TurnedOf) → IsBehind script.now objects.now old new pid call.now told self.old.told self.old.channels → came ≡ came_of told
            → AreMinded script.now new.plain self.new.told self.new.channels }
        ensures up { told_of self.new.told pid ≡ None }
        ensures named { NamesMore self.old.told [] self.new.told self.new.stirred }
        ensures room { length self.new.stirred ≤ 65 }
    {
        self.get_up(pid);
        self.stir(script, objects, pid, call, came);
    }

    /// So it is where a part was done, and the rest sleeps.
    fn go_on_in_part(&mut self, script: &Script, objects: &Objects, pid: u32, call: &Call)
        requires behind { (old new : World) × (told : TurnedOf) × IsBehind script.now objects.now old new pid call.now told self.old.told self.old.channels × (Part ≡ came_of told) }
        requires none { self.old.stirred ≡ [] }
        ensures minded { (old new : World) (told : TurnedOf) → IsBehind script.now objects.now old new pid call.now told self.old.told self.old.channels → Part ≡ came_of told
            → AreMinded script.now new.plain self.new.told self.new.channels }
        ensures named { HasNamed (is_settled self.old.told) (is_settled self.new.told) self.new.stirred }
    {
        self.go_on(script, objects, pid, call, Came::Part);
        self.lie_down(pid, !goes_on(script, objects, &mut None, pid));
    }

    /// Behind a turn of this call of a process, which came to this: those whom it may have woken are asked, and whose call sleeps is kept
    /// in mind.
    pub fn keep_in_mind(
        &mut self,
        script: &Script,
        objects: &Objects,
        pid: u32,
        call: &Call,
        turned: &Turned,
    )
        requires { (old new : World) × IsBehind script.now objects.now old new pid call.now turned.now self.old.told self.old.channels }
        ensures minded { (old new : World) → IsBehind script.now objects.now old new pid call.now turned.now self.old.told self.old.channels
            → AreMinded script.now new.plain self.new.told self.new.channels }
        ensures named { HasNamed (is_settled self.old.told) (is_settled self.new.told) self.new.stirred }
    {
        if !self.told.is_empty() || is_sleep(turned) || !self.stirred.is_empty() {
            self.look_after(script, objects, pid, call, came_of(turned));
        }
    }

    /// The same, where somebody sleeps. It stands by itself, since a function pays for the room of all its locals whenever it is entered.
    #[inline(never)]
    fn look_after(&mut self, script: &Script, objects: &Objects, pid: u32, call: &Call, came: Came)
        requires { (old new : World) × (told : TurnedOf) × IsBehind script.now objects.now old new pid call.now told self.old.told self.old.channels × (came ≡ came_of told) }
        ensures minded { (old new : World) (told : TurnedOf) → IsBehind script.now objects.now old new pid call.now told self.old.told self.old.channels → came ≡ came_of told
            → AreMinded script.now new.plain self.new.told self.new.channels }
        ensures named { HasNamed (is_settled self.old.told) (is_settled self.new.told) self.new.stirred }
    {
        self.stirred.clear();
        match came {
            Came::Sleep => self.sleep_on(pid),
            Came::Part => self.go_on_in_part(script, objects, pid, call),
            Came::Nothing | Came::Done | Came::End => {
                self.go_on(script, objects, pid, call, came)
            }
        }
    }

    /// A process's call was refused: it sleeps no more. Where a lock is held it may close a circle with the call at which it stands now.
    pub fn refused(&mut self, script: &Script, objects: &Objects, pid: u32)
        requires { (world : World) × StandsFor script.now objects.now world }
        ensures minded { (world : World) → IsReached script.now world.plain → AreMinded script.now world.plain self.old.told self.old.channels
            → StandsFor script.now objects.now (refused_in script.now world pid) → IsReached script.now (refused_in script.now world pid).plain
            → AreMinded script.now (refused_in script.now world pid).plain self.new.told self.new.channels }
        ensures named { HasNamed (is_settled self.old.told) (is_settled self.new.told) self.new.stirred }
    {
        self.stirred.clear();
        self.get_up(pid);
        if !objects.locks.is_empty() {
            self.ask_all(script, objects);
        }
    }

    /// A process was killed.
    pub fn killed(&mut self, script: &Script, objects: &Objects)
        requires { (world : World) × StandsFor script.now objects.now world }
        ensures minded { (world : World) → StandsFor script.now objects.now world → IsReached script.now world.plain → AreMinded script.now world.plain self.new.told self.new.channels }
        ensures named { HasNamed (is_settled self.old.told) (is_settled self.new.told) self.new.stirred }
    {
        self.stirred.clear();
        self.ask_all(script, objects);
    }

    /// Something was evicted, which stirs nobody.
    pub fn evicted(&mut self)
        ensures { self.new ≡ record self.old { stirred = [] } }
    {
        self.stirred.clear();
    }
}
