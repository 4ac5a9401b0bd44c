ghost use Rattle.std.specs.Prelude.{◌≡◌};
ghost use Rattle.posix_defs.specs.PriceList.{price_of};

use kabi_types::CallKind;
use posix_defs::Price;

/// What the price list says of a call.
pub fn price(kind: CallKind) -> Price
    ensures { result ≡ price_of kind }
{
    match kind {
        CallKind::Exec
        | CallKind::Stat
        | CallKind::Chdir
        | CallKind::Mkdir
        | CallKind::Rmdir
        | CallKind::Unlink
        | CallKind::Bind
        | CallKind::Mkfifo => Price::Always(2560),
        CallKind::Fork => Price::Always(3328),
        CallKind::OpenFile => Price::Always(3008),
        CallKind::Link | CallKind::Rename => Price::Always(2944),
        CallKind::Connect => Price::Always(2688),
        CallKind::Ftruncate => Price::Always(2176),
        CallKind::Dup | CallKind::Dup2 => Price::Always(256),
        CallKind::Fcntl => Price::Copied(256),
        CallKind::Pipe => Price::Always(512),
        CallKind::Socket => Price::Always(448),
        CallKind::Socketpair => Price::Always(640),
        CallKind::Accept => Price::Always(320),
        CallKind::Setlk | CallKind::Setlkw => Price::Always(128),
        CallKind::Mmap => Price::Mapped(512),
        CallKind::Store => Price::Touched(4096, 0),
        CallKind::Read | CallKind::Pread | CallKind::Readdir => Price::Touched(4096, 2176),
        CallKind::Write | CallKind::Pwrite => Price::Moved(2176, 576),
        // The definition has a case for each call, so the proof finds one that is forgotten here.
        _ => Price::Always(0),
    }
}
