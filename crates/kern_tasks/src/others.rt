//! The events that are of no process, each of which may be there.

ghost use Rattle.std.specs.Prelude.{◌≡◌, ◌≤◌, length, slice_get};
ghost use Rattle.kern_tasks.specs.Others.{present};

use kabi_types::Event;

/// How many of these events there are.
pub fn count_present(events: &[Option<Event>]) -> u32
    requires { length events.now ≤ 4 }
    ensures value { result ≡ length (present events.now) }
    ensures few { result ≤ 4 }
{
    let mut count = 0;
    for event in events {
        if event.is_some() {
            count += 1;
        }
    }
    count
}

/// The event at place `i`, from 0, among those of these that there are.
pub fn present_at(events: &[Option<Event>], i: u32) -> Option<Event>
    ensures { result ≡ slice_get (present events.now) i }
{
    let mut left = i;
    for event in events {
        if let Some(event) = event {
            if left == 0 {
                return Some(*event);
            }
            left -= 1;
        }
    }
    None
}
