//! The lists of processes that the kernel's value keeps: who lives, who of them dozes, and who is held.

ghost use Rattle.std.specs.Prelude.{◌≡◌, ◌+◌, ◌≤◌, ◌<◌, ◌++◌, ◌==◌, ◌&&◌, not, cond, None, Some, vec_len, vec_capacity, true};
ghost use Rattle.std.specs.List.{AllByRecursion, list_all, list_any};
ghost use Rattle.posix_defs.specs.Machine.{would_block};
ghost use Rattle.posix_defs.specs.Process.{is_alive};
ghost use Rattle.posix_defs.specs.World.{World};
ghost use Rattle.kern_shared.specs.Lists.{AreAlive, alive_but, awake_after, dozing_after, if_so, is_below, is_held, lowest};

use crate::Held;
use posix_defs::Turner;

/// Whether a process is alive and isn't this one.
fn stays<T: Turner>(store: &T, pid: u32, but: u32) -> bool
    ensures { (world : World) → T.stands store.now world → result ≡ (not (pid == but) && is_alive world.plain.table pid) }
{
    pid != but && store.alive(pid)
}

/// Keeps of these processes those that are alive, but for one.
fn keep_alive<T: Turner>(store: &T, pids: &mut Vec<u32>, but: u32)
    ensures items { (world : World) → T.stands store.now world → pids.new.items ≡ alive_but world.plain but pids.old.items }
    ensures fewer { vec_len pids.new ≤ vec_len pids.old }
    ensures room { vec_capacity pids.new ≡ vec_capacity pids.old }
{
    let mut place = 0;
    while place < pids.len() {
        if stays(store, pids[place], but) {
            place += 1;
        } else {
            pids.remove(place);
        }
    }
}

/// Adds a process, or none.
fn push_if(pids: &mut Vec<u32>, there: bool, pid: u32)
    requires { vec_len pids.old < vec_capacity pids.old }
    ensures items { pids.new.items ≡ pids.old.items ++ if_so there pid }
    ensures longer { vec_len pids.new ≤ vec_len pids.old + 1 }
    ensures room { vec_capacity pids.new ≡ vec_capacity pids.old }
{
    if there {
        pids.push_reserved(pid);
    }
}

/// Tells anew who is live behind an entry of a process, and who of them dozes: the process itself by whether it sleeps now,
/// others as before, and one that was made since the youngest one's pid was `before`.
pub(crate) fn sort_anew<T: Turner>(
    store: &T,
    awake: &mut Vec<u32>,
    dozing: &mut Vec<u32>,
    pid: u32,
    sleeps: bool,
    before: u32,
)
    requires awake { vec_len awake.old + 2 ≤ vec_capacity awake.old }
    requires dozing { vec_len dozing.old + 1 ≤ vec_capacity dozing.old }
    ensures awake { (world : World) → T.stands store.now world → awake.new.items ≡ awake_after world.plain pid sleeps before awake.old.items }
    ensures dozing { (world : World) → T.stands store.now world → dozing.new.items ≡ dozing_after world.plain pid sleeps dozing.old.items }
    ensures awake_room { vec_capacity awake.new ≡ vec_capacity awake.old }
    ensures dozing_room { vec_capacity dozing.new ≡ vec_capacity dozing.old }
{
    keep_alive(store, awake, pid);
    keep_alive(store, dozing, pid);
    let alive = store.alive(pid);
    push_if(awake, alive && !sleeps, pid);
    push_if(dozing, alive && sleeps, pid);
    let last = store.last_pid();
    push_if(awake, last != before, last);
}

/// Whether a pass holds this process.
pub(crate) fn is_held(held: &[Held], pid: u32) -> bool
    ensures { result ≡ is_held pid held.now }
{
    held.iter().any(|other| other.pid == pid)
}

/// Whether a process is below the one that was found, if one was.
pub(crate) fn is_below(pid: u32, found: Option<u32>) -> bool
    ensures { result ≡ is_below pid found }
{
    match found {
        Some(other) => pid < other,
        None => true,
    }
}

/// The lowest of these processes that no pass holds.
pub(crate) fn lowest_unheld(pids: &[u32], held: &[Held]) -> Option<u32>
    ensures { result ≡ lowest (λ pid. not (is_held pid held.now)) None pids.now }
{
    let mut found = None;
    for pid in pids {
        if is_below(*pid, found) && !is_held(held, *pid) {
            found = Some(*pid);
        }
    }
    found
}

/// A live process, where no pass holds it, its call wouldn't block now, and it is below the one that was found before; else
/// that one.
fn lower_ready<T: Turner>(store: &T, held: &[Held], pid: u32, found: Option<u32>) -> Option<u32>
    requires { (world : World) × T.stands store.now world × (is_alive world.plain.table pid ≡ true) }
    ensures { (world : World) → T.stands store.now world → is_alive world.plain.table pid ≡ true
        → result ≡ cond (is_below pid found && (not (is_held pid held.now) && not (would_block (T.script store.now) world.plain pid))) (Some pid) found }
{
    if is_below(pid, found) && !is_held(held, pid) && store.ready(pid) {
        Some(pid)
    } else {
        found
    }
}

/// The lowest of these processes that no pass holds and whose call wouldn't block now, or the one that was found before,
/// where that is lower.
pub(crate) fn lowest_ready<T: Turner>(
    store: &T,
    pids: &[u32],
    held: &[Held],
    before: Option<u32>,
) -> Option<u32>
    requires { (world : World) × T.stands store.now world × AreAlive world.plain pids.now }
    ensures { (world : World) → T.stands store.now world → AreAlive world.plain pids.now
        → result ≡ lowest (λ pid. not (is_held pid held.now) && not (would_block (T.script store.now) world.plain pid)) before pids.now }
{
    let mut found = before;
    for pid in pids {
        found = lower_ready(store, held, *pid, found);
    }
    found
}

/// Whether each of these processes' calls would block now.
pub(crate) fn all_block<T: Turner>(store: &T, pids: &[u32]) -> bool
    requires { (world : World) × T.stands store.now world × AreAlive world.plain pids.now }
    ensures { (world : World) → T.stands store.now world → AreAlive world.plain pids.now
        → result ≡ list_all (λ pid. would_block (T.script store.now) world.plain pid) pids.now }
{
    for pid in pids {
        if store.ready(*pid) {
            return false;
        }
    }
    true
}
