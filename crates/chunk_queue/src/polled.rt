//! The bits of `poll`.

ghost use Rattle.std.specs.Prelude.{◌≡◌, ◌<◌, ◌&&◌, if◌then◌else◌};
ghost use Rattle.posix_defs.specs.Pipe.{is_asked as asks};

/// There is something to read, or the end of it.
pub const POLLIN: u8 = 1;

/// There is room to write.
pub const POLLOUT: u8 = 4;

/// Nobody reads any more.
pub const POLLERR: u8 = 8;

/// Nobody writes any more.
pub const POLLHUP: u8 = 16;

/// An event, a power of 2, where `poll` is asked for it and it holds, else 0.
pub fn event_if(event: u8, events: i64, holds: bool) -> u8
    requires { 0 < event }
    ensures { result ≡ (if asks events event && holds then event else 0) }
{
    if events.cast_unsigned() / event as u64 % 2 == 1 && holds {
        event
    } else {
        0
    }
}
