//! Bits of numbers that calls have: flags, and the events of `poll`.

ghost use Rattle.std.specs.Prelude.{◌≡◌, ◌<◌, ◌&&◌, if◌then◌else◌};
ghost use Rattle.posix_defs.specs.Files.Descriptions.{has_flag};
ghost use Rattle.posix_defs.specs.Pipe.{is_asked};

/// There is something to read, or its end.
pub const POLLIN: u8 = 1;

/// A write would go.
pub const POLLOUT: u8 = 4;

/// Nobody reads any more.
pub const POLLERR: u8 = 8;

/// Nobody writes any more.
pub const POLLHUP: u8 = 16;

/// Whether a flag, which is a power of 2, is among these bits.
pub fn has_flag(bits: i64, flag: u64) -> bool
    requires { 0 < flag }
    ensures { result ≡ has_flag bits flag }
{
    bits.cast_unsigned() / flag % 2 == 1
}

/// An event, which is a power of 2, where it is asked for and comes; else 0.
pub fn event_if(event: u8, events: i64, comes: bool) -> u8
    requires { 0 < event }
    ensures { result ≡ (if is_asked events event && comes then event else 0) }
{
    if has_flag(events, u64::from(event)) && comes {
        event
    } else {
        0
    }
}
