//! The call `signal`.

ghost use Rattle.std.specs.Prelude.{◌≡◌, pos};
ghost use Rattle.kabi_types.specs.declared.calls.Call.{Call};
ghost use Rattle.kabi_types.specs.declared.scripts.Script.{Script};
ghost use Rattle.kheap_slabs.specs.Paid.{TakesNothing};
ghost use Rattle.posix_defs.specs.Signals.{disposition_of, sig_ign, signal};
ghost use Rattle.proc_table.specs.Table.{IsPlaced};
ghost use Rattle.store_objects.specs.Objects.{AreKept, Runs};
ghost use Rattle.store_objects.specs.Standing.{Performs};

use kabi_types::{Reply, Script};
use posix_defs::Turned;
use store_objects::{Caller, Objects, dispose, go_on};

/// Has the caller ignore SIGPIPE or SIGTERM from now on, by SIG_IGN, or be ended by it, by SIG_DFL. It is told which it was before.
///
/// <https://pubs.opengroup.org/onlinepubs/9699919799/functions/signal.html>
#[inline(never)]
pub fn signal(
    script: &Script,
    objects: &mut Objects,
    caller: &Caller,
    which: i64,
    disposition: i64,
) -> Turned
    requires kept { AreKept script.now objects.old }
    requires runs { Runs objects.old caller.now.place.pid caller.now.control }
    requires placed { IsPlaced objects.old.procs caller.now.place }
    ensures kept { AreKept script.now objects.new }
    ensures takes { TakesNothing objects.old.heap objects.new.heap }
    ensures does { Performs script.now objects.old caller.now.place.pid (Call.Signal which disposition) (λ plain. signal script.now plain caller.now.place.pid which disposition) result objects.new }
{
    let before = dispose(objects, caller.place, which, is_ignoring(disposition));
    go_on(script, objects, caller, Reply::Val(disposition_of(before)))
}

/// Whether a disposition is SIG_IGN.
fn is_ignoring(disposition: i64) -> bool
    ensures { result ≡ sig_ign disposition }
{
    disposition == 1
}

/// The number of a disposition: of SIG_IGN, or of SIG_DFL.
fn disposition_of(ignored: bool) -> i64
    ensures { result ≡ pos (disposition_of ignored) }
{
    if ignored { 1 } else { 0 }
}
