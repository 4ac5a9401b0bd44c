//! What a process asks for with its next call, read off the statement.

ghost use Rattle.std.specs.Prelude.{◌≡◌, ◌≤◌, cond, true, length, map, IfSome, option_copied};
ghost use Rattle.std.specs.List.{AllByRecursion};
ghost use Rattle.kabi_types.specs.Arguments.{is_number};
ghost use Rattle.kabi_types.specs.declared.calls.CallKind.TheVariants as kinds;
ghost use Rattle.posix_defs.specs.Control.{call_at, value_of};
ghost use Rattle.posix_defs.specs.Made as spec;
ghost use Rattle.posix_defs.specs.Needs.{bound};
ghost use Rattle.posix_defs.specs.PriceList.{price_of};
ghost use Rattle.posix_defs.specs.ScriptLines.{shape_of};
ghost use Rattle.posix_defs.specs.declared.prices.Price.TheVariants.{Always};
ghost use Rattle.prog_ctl.specs.Runnable.{IsNeverWrong, IsOperand, IsRunnableAt, TakesPath, most_text};
ghost use Rattle.prog_ctl.specs.Waits.{asked_for};

use crate::made::{made, operand_at};
use crate::paths::{names_path, names_paths, names_renamed};
use kabi_types::{CallKind, Control, Operand, Statement, Text};
use need_table::{bound, price};
use posix_defs::{Asked, Price};

/// The command of `fcntl` that makes a further descriptor.
const F_DUPFD: i64 = 0;

/// The bound of a call of this kind, with these operands and texts in the order of its fields. It stands by itself, since the call is
/// made here, which has room for two paths.
#[inline(never)]
fn bound_made(control: &Control, kind: CallKind, operands: &[Operand], texts: &[Text]) -> u64
    requires count { length operands.now ≤ 17 }
    requires each { AllByRecursion IsOperand operands.now }
    requires texts { AllByRecursion (λ text. length text ≤ most_text (shape_of kind)) texts.now }
    ensures { result ≡ bound (spec.made kind (map (value_of control.now) operands.now) texts.now control.now.done) }
{
    bound(&made(control, kind, operands, texts))
}

/// The same of a call of which a price is known that goes by its kind alone: it is nothing where its paths are wrong. Calls that take
/// paths and nothing else aren't made for it, nor are those of which no operand can be wrong.
fn bound_at(
    control: &Control,
    kind: CallKind,
    operands: &[Operand],
    texts: &[Text],
    bytes: u64,
) -> u64
    requires count { length operands.now ≤ 17 }
    requires each { AllByRecursion IsOperand operands.now }
    requires texts { AllByRecursion (λ text. length text ≤ most_text (shape_of kind)) texts.now }
    requires price { price_of kind ≡ Always bytes }
    ensures { result ≡ bound (spec.made kind (map (value_of control.now) operands.now) texts.now control.now.done) }
{
    if takes_path(kind) {
        return only_if(names_path(texts), bytes);
    }
    if is_never_wrong(kind) {
        return bytes;
    }
    match kind {
        CallKind::Link => only_if(names_paths(texts), bytes),
        CallKind::Rename => only_if(names_renamed(texts), bytes),
        _ => bound_made(control, kind, operands, texts),
    }
}

/// The same of `fcntl`, which is made for it where it makes a further descriptor, and for no other command.
fn bound_copied(control: &Control, kind: CallKind, operands: &[Operand], texts: &[Text]) -> u64
    requires count { length operands.now ≤ 17 }
    requires each { AllByRecursion IsOperand operands.now }
    requires texts { AllByRecursion (λ text. length text ≤ most_text (shape_of kind)) texts.now }
    requires copies { kind ≡ kinds.Fcntl }
    ensures { result ≡ bound (spec.made kind (map (value_of control.now) operands.now) texts.now control.now.done) }
{
    let cmd = operand_at(control, operands, 1);
    if makes_copy(cmd) {
        bound_made(control, kind, operands, texts)
    } else {
        0
    }
}

/// Whether a command of `fcntl` makes a further descriptor.
fn makes_copy(cmd: i64) -> bool
    ensures { result ≡ is_number 0 cmd }
{
    cmd == F_DUPFD
}

/// The same, where most calls make nothing and aren't made for it.
fn bound_of(control: &Control, kind: CallKind, operands: &[Operand], texts: &[Text]) -> u64
    requires count { length operands.now ≤ 17 }
    requires each { AllByRecursion IsOperand operands.now }
    requires texts { AllByRecursion (λ text. length text ≤ most_text (shape_of kind)) texts.now }
    ensures { result ≡ bound (spec.made kind (map (value_of control.now) operands.now) texts.now control.now.done) }
{
    match price(kind) {
        Price::Always(0) => 0,
        Price::Always(bytes) => bound_at(control, kind, operands, texts, bytes),
        Price::Copied(_) => bound_copied(control, kind, operands, texts),
        _ => bound_made(control, kind, operands, texts),
    }
}

/// Whether the calls of this kind take one path and nothing else.
fn takes_path(kind: CallKind) -> bool
    ensures { result ≡ true → TakesPath kind }
{
    matches!(
        kind,
        CallKind::Exec
            | CallKind::Stat
            | CallKind::Chdir
            | CallKind::Mkdir
            | CallKind::Rmdir
            | CallKind::Unlink
            | CallKind::Mkfifo
    )
}

/// Whether no operand of a call of this kind can be wrong, of those that may make objects.
fn is_never_wrong(kind: CallKind) -> bool
    ensures { result ≡ true → IsNeverWrong kind }
{
    matches!(
        kind,
        CallKind::Fork
            | CallKind::Dup
            | CallKind::Dup2
            | CallKind::Pipe
            | CallKind::Socket
            | CallKind::Socketpair
            | CallKind::Accept
    )
}

fn only_if(right: bool, bytes: u64) -> u64
    ensures { result ≡ cond right bytes 0 }
{
    if right { bytes } else { 0 }
}

/// What is asked for with the call that a statement makes; at the end of a program that is `exit 0`.
pub fn asked_at(control: &Control, statement: Option<&Statement>) -> Asked
    requires { IfSome (option_copied statement) (IsRunnableAt control.now.place) }
    ensures { result ≡ asked_for (call_at control.now (option_copied statement.entry)) }
{
    let Some(statement) = statement else {
        return asking(CallKind::Exit, 0);
    };
    let Statement::Invoke {
        kind,
        operands,
        texts,
        ..
    } = statement
    else {
        return asking(CallKind::SchedYield, 0);
    };
    asking(
        *kind,
        bound_of(control, *kind, operands.items(), texts.items()),
    )
}

fn asking(kind: CallKind, bound: u64) -> Asked
    ensures { result ≡ record { kind = kind; bound = bound } }
{
    Asked { kind, bound }
}
