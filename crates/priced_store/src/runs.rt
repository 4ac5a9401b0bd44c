//! A run of the store by the core.
ghost use Rattle.std.specs.Prelude.{◌≡◌, ◌≤◌, IfOk, string_bytes};
ghost use Rattle.priced_store.specs.declared.store.Maps.{Maps};
ghost use Rattle.priced_store.specs.Standing.{Stands, high_of, marks_of};
ghost use Rattle.priced_store.specs.Worlds.{body, maps};
ghost use Rattle.run_report.specs.Reports.{IsReport};

use crate::store::Maps;
use kabi_types::{
    CallKind, Chooser, Memory, Name27, Operand, Operands, Policy, Program, Programs, Script,
    Statement, Statements, Texts,
};
use kern_core::Core;
use run_report::{Reported, run_core};
use std::alloc::Global;

/// The one statement of the program: two pages are mapped.
fn body(alloc: Global) -> Result<Statements, Memory>
    ensures { IfOk result (λ said. said ≡ body) }
{
    let mut body = Vec::new(alloc);
    body.push(Statement::Invoke {
        kind: CallKind::Mmap,
        operands: Operands::from_vec([Operand::Number(8192)].to_vec(alloc)?),
        texts: Texts::from_vec(Vec::new(alloc)),
        first: None,
        second: None,
    })?;
    Ok(Statements::from_vec(body))
}

/// The script, on so much heap.
fn script(alloc: Global, heap: u64) -> Result<Script, Memory>
    ensures { IfOk result (λ script. script ≡ maps heap) }
{
    let name = Name27::of(b"init").unwrap();
    let body = body(alloc)?;
    let mut programs = Vec::new(alloc);
    programs.push(Program { name, body })?;
    Ok(Script {
        heap,
        disk: 64,
        steps: 1000,
        policy: Policy::Heaviest,
        chooser: Chooser::Plain,
        programs: Programs::from_vec(programs),
    })
}

/// Runs the store on so much heap, from 8192 to 8388608 bytes, and reports the run. `Memory` comes where the host has none left.
pub fn run_maps(alloc: Global, heap: u64) -> Result<Reported, Memory>
    requires least { 8192 ≤ heap }
    requires most { heap ≤ 8388608 }
    ensures { IfOk result (λ it. (store : Maps) × IsReport Stands marks_of high_of (maps heap) store it.end (string_bytes it.text)) }
{
    let script = script(alloc, heap)?;
    let mut core = Core::boot(alloc, Maps::boot(heap), script.steps, heap)?;
    let reported = run_core(alloc, &mut core, &script);
    drop(core);
    reported
}
