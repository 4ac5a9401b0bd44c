//! A store of two processes.

ghost use Rattle.std.proofs.Common.{rules};
ghost use Rattle.std.specs.Prelude.{◌≡◌, ◌≤◌, ◌+◌, ◌%◌, ◌^◌, max, false, []};
ghost use Rattle.shared_trials.specs.declared.scenes.Scene.TheVariants.{Young};
ghost use Rattle.shared_trials.specs.Pair.{act_as, act_of, cached_by, cached_without, call_as, can_lose, first_act, first_after, last_in, live_at, pair, scene_after, scene_killed, scene_refused, second_act, told_of, victim_in, who, world_at};

use crate::asking::asked_of;
use crate::{Act, Next, Scene, Who};
use kabi_types::{Cached, Call, Errno, Need, Path, Reply};
use posix_defs::{Asked, Turned, Turner};

/// A process that forks; then it and its child open a file that isn't there, and end. To look for its name a block is cached. The store
/// has the heap of its script, how far the processes have come, whether a block is cached, and of the heap how often that was
/// marked, and the most that was taken in the last call.
#[derive(Drop)]
pub struct Pair {
    heap: u64,
    scene: Scene,
    cached: bool,
    marks: u64,
    high: u64,
    ghost above: { live_at scene cached ≤ high },
}

/// Which process a pid names.
fn who(pid: u32) -> Who
    ensures { result ≡ who pid }
{
    match pid {
        1 => Who::First,
        2 => Who::Second,
        _ => Who::Nobody,
    }
}

/// What a process that goes on here does next.
fn act_as(next: Next) -> Act
    ensures { result ≡ act_as next }
{
    match next {
        Next::Open => Act::Open,
        Next::Exit => Act::Exit,
    }
}

/// What the first process does next, if it lives.
fn first_act(scene: Scene) -> Option<Act>
    ensures { result ≡ first_act scene }
{
    match scene {
        Scene::Young => Some(Act::Fork),
        Scene::Alone(first) => Some(act_as(first)),
        Scene::Two(first, _) => Some(act_as(first)),
        Scene::Exited(first) => Some(act_as(first)),
        Scene::Killed(first, _) => Some(act_as(first)),
        Scene::Over | Scene::BothOver(_) => None,
    }
}

/// What its child does next, if it lives.
fn second_act(scene: Scene) -> Option<Act>
    ensures { result ≡ second_act scene }
{
    match scene {
        Scene::Two(_, second) => Some(act_as(second)),
        Scene::Young | Scene::Alone(_) | Scene::Exited(_) => None,
        Scene::Killed(_, _) | Scene::Over | Scene::BothOver(_) => None,
    }
}

/// What a process does next, if it lives.
fn act_of(one: Who, scene: Scene) -> Option<Act>
    ensures { result ≡ act_of one scene }
{
    match one {
        Who::First => first_act(scene),
        Who::Second => second_act(scene),
        Who::Nobody => None,
    }
}

/// The call that this is.
fn call_as(act: Act) -> Call
    ensures { result ≡ call_as act }
{
    match act {
        Act::Fork => Call::Fork,
        Act::Open => Call::OpenFile {
            path: Path::of(b"/d").unwrap(),
            flags: 0,
        },
        Act::Exit => Call::Exit { status: 0 },
    }
}

/// What its turn tells.
fn told_of(act: Option<Act>) -> Turned
    ensures { result ≡ told_of act }
{
    match act {
        None => Turned::Gone,
        Some(Act::Fork) => Turned::Done(Reply::Val(2)),
        Some(Act::Open) => Turned::Done(Reply::Fail(Errno::ENOENT)),
        Some(Act::Exit) => Turned::Ended(0),
    }
}

/// Whether a block is cached behind it, where one was before or not.
fn cached_by(act: Option<Act>, cached: bool) -> bool
    ensures { result ≡ cached_by act cached }
{
    match act {
        Some(Act::Open) => true,
        Some(Act::Fork) | Some(Act::Exit) | None => cached,
    }
}

/// The scene behind a turn of the first process.
fn first_after(scene: Scene) -> Scene
    ensures { result ≡ first_after scene }
{
    match scene {
        Scene::Young => Scene::Two(Next::Open, Next::Open),
        Scene::Alone(Next::Open) => Scene::Alone(Next::Exit),
        Scene::Alone(Next::Exit) => Scene::Over,
        Scene::Two(Next::Open, second) => Scene::Two(Next::Exit, second),
        Scene::Two(Next::Exit, second) => Scene::BothOver(second),
        Scene::Exited(Next::Open) => Scene::Exited(Next::Exit),
        Scene::Exited(Next::Exit) => Scene::BothOver(Next::Exit),
        Scene::Killed(Next::Open, second) => Scene::Killed(Next::Exit, second),
        Scene::Killed(Next::Exit, second) => Scene::BothOver(second),
        Scene::Over => Scene::Over,
        Scene::BothOver(second) => Scene::BothOver(second),
    }
}

/// The scene behind a turn of a process.
fn scene_after(one: Who, scene: Scene) -> Scene
    ensures { result ≡ scene_after one scene }
{
    match (one, scene) {
        (Who::First, _) => first_after(scene),
        (Who::Second, Scene::Two(first, Next::Open)) => Scene::Two(first, Next::Exit),
        (Who::Second, Scene::Two(first, Next::Exit)) => Scene::Exited(first),
        _ => scene,
    }
}

/// The scene where a call of a process was refused.
fn scene_refused(one: Who, scene: Scene) -> Scene
    ensures { result ≡ scene_refused one scene }
{
    match (one, scene) {
        (Who::First, Scene::Young) => Scene::Alone(Next::Open),
        (Who::First, Scene::Alone(_)) => Scene::Alone(Next::Exit),
        (Who::First, Scene::Two(_, second)) => Scene::Two(Next::Exit, second),
        (Who::First, Scene::Exited(_)) => Scene::Exited(Next::Exit),
        (Who::First, Scene::Killed(_, second)) => Scene::Killed(Next::Exit, second),
        (Who::Second, Scene::Two(first, _)) => Scene::Two(first, Next::Exit),
        _ => scene,
    }
}

/// The scene where the child was killed, if it lived.
fn scene_killed(one: Who, scene: Scene) -> Scene
    ensures { result ≡ scene_killed one scene }
{
    match (one, scene) {
        (Who::Second, Scene::Two(first, second)) => Scene::Killed(first, second),
        _ => scene,
    }
}

/// What all takes of the heap.
fn taken(scene: Scene, cached: bool) -> u64
    ensures { result ≡ live_at scene cached }
{
    let held = match scene {
        Scene::Young | Scene::Alone(_) => 640,
        Scene::Two(_, _) | Scene::Exited(_) | Scene::Killed(_, _) => 1152,
        Scene::Over | Scene::BothOver(_) => 128,
    };
    if cached { held + 1088 } else { held }
}

/// Whether a cache can lose something.
fn can_lose(what: Cached, cached: bool) -> bool
    ensures { result ≡ can_lose what cached }
{
    match what {
        Cached::Name | Cached::Vnode => false,
        Cached::Block => cached,
    }
}

/// Whether the block is cached still when one has.
fn cached_without(what: Cached, cached: bool) -> bool
    ensures { result ≡ cached_without what cached }
{
    match what {
        Cached::Name | Cached::Vnode => cached,
        Cached::Block => false,
    }
}

/// Whom the policy kills: the child, if it lives.
fn victim_in(scene: Scene) -> Option<u32>
    ensures { result ≡ victim_in scene }
{
    match scene {
        Scene::Two(_, _) => Some(2),
        Scene::Young | Scene::Alone(_) | Scene::Exited(_) => None,
        Scene::Killed(_, _) | Scene::Over | Scene::BothOver(_) => None,
    }
}

/// The pid of the youngest process.
fn last_in(scene: Scene) -> u32
    ensures { result ≡ last_in scene }
{
    match scene {
        Scene::Young | Scene::Alone(_) | Scene::Over => 1,
        Scene::Two(_, _) | Scene::Exited(_) | Scene::Killed(_, _) | Scene::BothOver(_) => 2,
    }
}

impl Pair {
    /// A call has led here.
    fn lead(&mut self, scene: Scene, cached: bool)
        ensures heap { self.new.heap ≡ self.old.heap }
        ensures scene { self.new.scene ≡ scene }
        ensures cached { self.new.cached ≡ cached }
        ensures marks { self.new.marks ≡ (self.old.marks + 1) % 2 ^ 64 }
        ensures high { self.new.high ≡ max (live_at self.old.scene self.old.cached) (live_at scene cached) }
    {
        self.high = taken(self.scene, self.cached).max(taken(scene, cached));
        self.scene = scene;
        self.cached = cached;
        self.marks = self.marks.wrapping_add(1);
    }
}

impl Turner for Pair {
    ghost script = { λ store. pair store.heap };

    ghost stands = { λ store world. world ≡ world_at store.scene store.cached };

    ghost marks = { λ store. store.marks };

    ghost high = { λ store. store.high };

    ghost risen = { λ store. live_at store.scene store.cached };

    ghost beside = { λ _ _ _ _ _. Unit {0} };

    ghost settled = { λ _ _. false };

    ghost stirred = { λ _. [] };

    fn next(&self, pid: u32) -> Call {
        match act_of(who(pid), self.scene) {
            Some(act) => call_as(act),
            None => Call::Fork,
        }
    }

    fn asks(&self, pid: u32) -> Asked {
        asked_of(&self.next(pid))
    }

    fn turn(&mut self, pid: u32, _call: &Call, _need: Need) -> Turned {
        let one = who(pid);
        let act = act_of(one, self.scene);
        let cached = cached_by(act, self.cached);
        self.lead(scene_after(one, self.scene), cached);
        told_of(act)
    }

    fn refuse(&mut self, pid: u32) {
        self.lead(scene_refused(who(pid), self.scene), self.cached);
    }

    fn ready(&self, _pid: u32) -> bool {
        true
    }

    fn settles(&self, _pid: u32) -> bool {
        false
    }

    fn stirred(&self) -> &[u32] {
        &[]
    }

    fn evictable(&self, what: Cached) -> bool {
        can_lose(what, self.cached)
    }

    fn evict(&mut self, what: Cached) {
        self.lead(self.scene, cached_without(what, self.cached));
    }

    fn victim(&self) -> Option<u32> {
        victim_in(self.scene)
    }

    fn kill(&mut self, pid: u32) {
        self.lead(scene_killed(who(pid), self.scene), self.cached);
    }

    fn alive(&self, pid: u32) -> bool {
        act_of(who(pid), self.scene).is_some()
    }

    fn last_pid(&self) -> u32 {
        last_in(self.scene)
    }

    fn live(&self) -> u64 {
        taken(self.scene, self.cached)
    }

    fn reads(&self) -> u64 {
        0
    }

    ghost settled_block = { Prim.search rules };
}

/// The first process at its start, on so much heap.
pub fn at_boot(heap: u64) -> Pair
    ensures { (result.heap ≡ heap) × (result.scene ≡ Young) × (result.cached ≡ false) }
{
    Pair {
        heap,
        scene: Scene::Young,
        cached: false,
        marks: 0,
        high: 640,
    }
}
