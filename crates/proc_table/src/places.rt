//! The places of processes: which key of the heap has the Proc of a pid.

ghost use Rattle.std.specs.Prelude.{◌≡◌, ◌==◌, ℕ, not, filter};
ghost use Rattle.proc_table.specs.Table.{AreBetween, key_of, key_of_target};

use arrayvec::ArrayVec;

/// How many processes may be there, alive or ended and not waited for.
pub(crate) const MOST: usize = 64;

/// Where a process stands in the heap.
#[derive(Clone, Copy, Default)]
pub struct Place {
    /// Its number, from 1.
    pub pid: u32,
    /// The key of its Proc.
    pub key: u32,
}

// The key of the process of that pid. Pids rise from 1, so none stands behind the place that its pid numbers, and mostly it
// stands near there: the walk goes down from it.
pub(crate) fn find(listed: &[Place], pid: u32) -> Option<u32>
    requires { (last : ℕ) × AreBetween 0 listed.now last }
    ensures { result ≡ key_of listed.now pid }
{
    let mut places = listed.len().min(pid as usize);
    while places > 0 {
        places -= 1;
        let place = listed[places];
        if place.pid == pid {
            return Some(place.key);
        }
        if place.pid < pid {
            return None;
        }
    }
    None
}

// The key of the process that a call names by a number, which may be no pid.
pub(crate) fn find_target(listed: &[Place], target: i64) -> Option<u32>
    ensures { result ≡ key_of_target listed.now target }
{
    for place in listed {
        if i64::from(place.pid) == target {
            return Some(place.key);
        }
    }
    None
}

// Leaves the places of all others.
pub(crate) fn keep_others(listed: &mut ArrayVec<Place, 64>, pid: u32)
    ensures { listed.new.items ≡ filter (λ place. not (place.pid == pid)) listed.old.items }
{
    listed.retain(|place| place.pid != pid);
}
