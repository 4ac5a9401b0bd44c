//! A control goes on: to its next call, and behind a reply.

ghost use Rattle.std.specs.Prelude.{◌≡◌, ◌+◌, ◌<◌, ◌≤◌, length, option_copied, slice_get, IfSome, None};
ghost use Rattle.kabi_types.specs.declared.scripts.Script.{Script};
ghost use Rattle.posix_defs.specs.Control as spec;
ghost use Rattle.posix_defs.specs.ValidScript.{IsValid};
ghost use Rattle.prog_ctl.specs.Runnable.{IsRunnable, IsRunnableAt, Rests, Stands};
ghost use Rattle.prog_ctl.specs.Waits.{asked_for, wait_of};

use crate::Awaited;
use crate::asked::asked_at;
use crate::made::{call_at, wait_at};
use crate::statements::{go_back, local, take_reply};
use kabi_types::{Call, Control, Reply, Script, Statement};
use posix_defs::Asked;

/// The statements of the control's program.
fn body_of<'a>(script: &'a Script, control: &Control) -> &'a [Statement]
    ensures { result.now ≡ spec.body_of script.now control.now }
{
    match script.programs.items().get(control.program as usize) {
        Some(program) => program.body.items(),
        None => &[],
    }
}

/// The statement at a place; None at the end.
fn statement_at(body: &[Statement], place: u32) -> Option<&Statement>
    ensures { option_copied result ≡ slice_get body.now place }
{
    body.get(place as usize)
}

/// Does the local statements before the next call. It ends since each goes on to a later place.
fn settle(body: &[Statement], control: &mut Control)
    requires runnable { IsRunnable body.now }
    requires short { length body.now < 4294967296 }
    requires place { control.old.place < 4294967296 }
    ensures settled { control.new ≡ spec.settle (length body.now) body.now control.old }
    ensures rests { spec.local_at control.new (slice_get body.now control.new.place) ≡ None }
{
    while let Some(statement) = statement_at(body, control.place) {
        if !local(control, statement) {
            return;
        }
    }
}

/// The process's next call. The local statements before it are done; asked again, it is the same.
pub fn next_call(script: &Script, control: &mut Control) -> Call
    requires { Stands script.now control.old }
    ensures call { result ≡ spec.call_of script.now control.old }
    ensures settled { control.new ≡ spec.settled script.now control.old }
    ensures stands { Stands script.now control.new }
    ensures rests { Rests script.now control.new }
{
    let body = body_of(script, control);
    settle(body, control);
    call_at(control, statement_at(body, control.place))
}

/// Does the local statements before the process's next call, at which it stands then.
pub fn go_to_call(script: &Script, control: &mut Control)
    requires { Stands script.now control.old }
    ensures settled { control.new ≡ spec.settled script.now control.old }
    ensures stands { Stands script.now control.new }
    ensures rests { Rests script.now control.new }
{
    settle(body_of(script, control), control);
}

/// The next call of a process that stands at it.
pub fn call_here(script: &Script, control: &Control) -> Call
    requires stands { Stands script.now control.now }
    requires rests { Rests script.now control.now }
    ensures { result ≡ spec.call_of script.now control.now }
{
    call_at(
        control,
        statement_at(body_of(script, control), control.place),
    )
}

/// What a process that stands at its next call asks for with it.
pub fn asked_here(script: &Script, control: &Control) -> Asked
    requires stands { Stands script.now control.now }
    requires rests { Rests script.now control.now }
    ensures { result ≡ asked_for (spec.call_of script.now control.now) }
{
    asked_at(
        control,
        statement_at(body_of(script, control), control.place),
    )
}

/// What the next call of a process that stands at it waits for; None where it is one that never blocks.
pub fn wait_here(script: &Script, control: &Control) -> Option<Awaited>
    requires stands { Stands script.now control.now }
    requires rests { Rests script.now control.now }
    ensures { result ≡ wait_of (spec.call_of script.now control.now) }
{
    wait_at(
        control,
        statement_at(body_of(script, control), control.place),
    )
}

/// What a call's statement does with the reply. A loop's register falls, and it goes back.
fn take_answer(control: &mut Control, statement: Option<&Statement>, reply: &Reply)
    requires calls { spec.local_at control.old (option_copied statement) ≡ None }
    requires runnable { IfSome (option_copied statement) (IsRunnableAt control.old.place) }
    requires place { control.old.place < 4294967295 }
    ensures { control.new ≡ spec.after_at control.old reply.now (option_copied statement.entry) }
{
    match statement {
        Some(Statement::Invoke { first, second, .. }) => take_reply(
            control, reply, *first, *second,
        ),
        Some(Statement::Loop(register, place)) => go_back(control, *register, *place),
        Some(_) | None => {}
    }
}

/// Goes on behind the call that `next_call` gave, which got this reply.
pub fn answer(script: &Script, control: &mut Control, reply: &Reply)
    requires stands { Stands script.now control.old }
    requires rests { Rests script.now control.old }
    ensures after { control.new ≡ spec.after script.now control.old reply.now }
    ensures stands { Stands script.now control.new }
{
    let body = body_of(script, control);
    take_answer(control, statement_at(body, control.place), reply);
    control.done = 0;
}

/// A part of a write moved `k` bytes: the process still stands at that call.
pub fn moved(control: &mut Control, k: u32)
    requires { control.old.done + k ≤ 4294967295 }
    ensures more { control.new ≡ spec.after_part control.old k }
    ensures stands { (script : Script) → Stands script control.old → Stands script control.new }
    ensures rests { (script : Script) → Rests script control.old → Rests script control.new }
{
    control.done += k;
}

/// Goes to the start of another program of the script, as a call of `exec` does that succeeds. The registers are kept.
pub fn restart(control: &mut Control, program: u32)
    ensures restarted { control.new ≡ spec.restarted control.old program }
    ensures stands { (script : Script) → IsValid script → program < length script.programs → Stands script control.new }
{
    *control = Control {
        program,
        place: 0,
        regs: control.regs,
        done: 0,
    };
}
