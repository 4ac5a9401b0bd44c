//! Groups that run at once.

ghost use Rattle.std.specs.Prelude.{◌≡◌};
ghost use Rattle.kabi_types.specs.declared.scripts.Policy.TheVariants.{Heaviest, Youngest};
ghost use Rattle.posix_defs.specs.Victim.{score_of};

use crate::tool::{NONE, check, outcome_with};
use kabi_types::Weight;
use kres_tool::Status;
use std::sync::atomic::{AtomicBool, Ordering};
use std::test::Fail;
use std::thread;
use work_crew::OpenDoor;

/// Two groups in which processes are killed, each by its own policy, and one that waits for neither. It stands between them, since
/// each of two workers has groups that stand side by side.
const KILLING: &str = "whole 65536
group a
heap 8192
program init
set r0 7
label again
r1 = fork
if r1 == 0 kid
loop r0 again
exit 0
label kid
end
group c
heap 8192
program init
r1 = getpid
exit 0
end
group b
policy youngest
heap 8192
program init
set r0 7
label again
r1 = fork
if r1 == 0 kid
loop r0 again
exit 0
label kid
end
";

/// Says that one of two is here, and looks for the other a while; who gives up isn't here any more.
fn meet(here: &AtomicBool, there: &AtomicBool, met: &AtomicBool) {
    here.store(true, Ordering::SeqCst);
    for _ in 0..1000000 {
        if there.load(Ordering::SeqCst) {
            met.store(true, Ordering::SeqCst);
            return;
        }
        thread::yield_now();
    }
    here.store(false, Ordering::SeqCst);
}

/// Each of two groups kills by a policy of its own, and its closure waits for the other's: they meet only where both run.
#[test]
fn two_groups_run_at_once(rt: HostRuntime) -> Result<(), Fail> {
    let heavy = AtomicBool::new(false);
    let young = AtomicBool::new(false);
    let both = AtomicBool::new(false);
    let (one, other, met) = (&heavy, &young, &both);
    let outcome = outcome_with(
        &rt,
        "groups 2",
        KILLING,
        NONE,
        &OpenDoor,
        move |w: Weight| -> u64
            ensures { result ≡ score_of Heaviest w }
        {
            meet(one, other, met);
            512 + 4096 * u64::from(w.frames) + 512 * u64::from(w.nodes) + 64 * u64::from(w.descs)
        },
        move |w: Weight| -> u64
            ensures { result ≡ score_of Youngest w }
        {
            meet(other, one, met);
            u64::from(w.pid)
        },
    )?;
    let finished = outcome.status == Status::Finished;
    drop(outcome);
    check(&rt, finished, "the status");
    check(&rt, both.load(Ordering::SeqCst), "both at once");
    Ok(())
}
