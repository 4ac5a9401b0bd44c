ghost use Rattle.std.specs.Prelude.{◌≡◌, IfOk, string_bytes};
ghost use Rattle.kabi_types.specs.declared.entries.End.{End};
ghost use Rattle.posix_defs.specs.ValidScript.{IsValid};
ghost use Rattle.kern_tasks.specs.View.{HasBooted};
ghost use Rattle.kern_core.specs.RunOver.{HasEndedOver};
ghost use Rattle.run_report.specs.Reports.{IsReport};

use crate::texts::report;
use kabi_types::{End, Memory, Script};
use kern_core::{Core, run_to_end};
use posix_defs::Turner;
use std::alloc::Global;

/// What came of a run: how it ended, and its report.
#[derive(Drop)]
pub struct Reported {
    pub end: End,
    pub text: String,
}

/// Runs a core at boot to the end of its script, each event as the script's chooser picks it, and reports the run. The core
/// is at its end also where the host has no memory for the report.
pub fn run_core<T: Turner + Drop>(
    alloc: Global,
    core: &mut Core<T>,
    script: &Script,
) -> Result<Reported, Memory>
    requires valid { IsValid script.now }
    requires booted { HasBooted T.stands (T.script core.old.store) core.old }
    requires script { script.now ≡ T.script core.old.store }
    requires steps { core.old.steps ≡ script.now.steps }
    ensures script { T.script core.new.store ≡ script.now }
    ensures ended { (end : End) × HasEndedOver T.stands T.marks T.high script.now core.new end }
    ensures reported { IfOk result (λ it. IsReport T.stands T.marks T.high script.now core.new.store it.end (string_bytes it.text)) }
{
    let end = run_to_end(core, &script.chooser);
    let text = report(
        alloc,
        core.run(),
        end,
        core.charged(),
        core.peak(),
        core.reads(),
    )?;
    Ok(Reported { end, text })
}
