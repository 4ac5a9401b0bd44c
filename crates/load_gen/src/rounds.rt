//! The rounds of a generated script.

ghost use Rattle.std.specs.Prelude.{◌≡◌, ℕ, ◌+◌, ◌<◌, ◌^◌, ◌++◌, drop, length, take, OnOk};
ghost use Rattle.posix_defs.specs.Generated.{writes_file, fills_pipe, forks, round_of, round};

use crate::statements::{
    asks, asks_two, child_label, directory, exits, file, inside, names, names_two, number,
    other_file, parent_label,
};
use kabi_types::{CallKind, Memory, Operand, Statement, Test, Text};
use posix_defs::choice_of;
use std::alloc::Global;

/// The register that holds the address of the memory.
const MEMORY: Operand = Operand::Reg(1);

/// A file is made, written once and closed.
fn writes_file(alloc: Global, body: &mut Vec<Statement>, q: u32, w: u32) -> Result<(), Memory>
    ensures { OnOk result (body.new.items ≡ body.old.items ++ writes_file q w) }
{
    let made = Operand::Reg(2);
    names(
        alloc,
        body,
        2,
        CallKind::OpenFile,
        &[number(66)],
        file(alloc, q)?,
    )?;
    asks(alloc, body, 3, CallKind::Write, &[made, MEMORY, number(w)])?;
    asks(alloc, body, 3, CallKind::Close, &[made])
}

/// 100 bytes go through a pipe.
fn fills_pipe(alloc: Global, body: &mut Vec<Statement>) -> Result<(), Memory>
    ensures { OnOk result (body.new.items ≡ body.old.items ++ fills_pipe) }
{
    let (reading, writing) = (Operand::Reg(2), Operand::Reg(3));
    asks_two(alloc, body, (2, 3), CallKind::Pipe, &[])?;
    asks(
        alloc,
        body,
        4,
        CallKind::Write,
        &[writing, MEMORY, number(100)],
    )?;
    asks(
        alloc,
        body,
        4,
        CallKind::Read,
        &[reading, MEMORY, number(100)],
    )?;
    asks(alloc, body, 4, CallKind::Close, &[reading])?;
    asks(alloc, body, 4, CallKind::Close, &[writing])
}

/// A child is made, and its parent waits for it and leaps over what the child does.
fn waits(alloc: Global, body: &mut Vec<Statement>, at: u32) -> Result<(), Memory>
    requires { at + 7 < 2 ^ 32 }
    ensures { (i q : ℕ) → OnOk result (body.new.items ≡ body.old.items ++ take 4 (forks i q at)) }
{
    let child = Operand::Reg(2);
    asks(alloc, body, 2, CallKind::Fork, &[])?;
    body.push(Statement::If {
        left: child,
        test: Test::Eq,
        right: number(0),
        place: at + 4,
    })?;
    asks_two(alloc, body, (3, 4), CallKind::Waitpid, &[child, number(0)])?;
    body.push(Statement::Jump(at + 7))?;
    Ok(())
}

/// The child writes into its memory and exits. Behind it its parent goes on.
fn writes_and_exits(alloc: Global, body: &mut Vec<Statement>, i: u32, q: u32) -> Result<(), Memory>
    ensures { (at : ℕ) → OnOk result (body.new.items ≡ body.old.items ++ drop 4 (forks i q at)) }
{
    body.push(Statement::Label(child_label(alloc, i)?))?;
    let text = Text::from_vec(b"x".to_vec(alloc)?);
    names(alloc, body, 3, CallKind::Store, &[MEMORY], text)?;
    exits(alloc, body, q)?;
    body.push(Statement::Label(parent_label(alloc, i)?))?;
    Ok(())
}

/// A child writes into its memory and exits, and its parent waits for it.
fn forks(alloc: Global, body: &mut Vec<Statement>, i: u32, q: u32) -> Result<(), Memory>
    requires { length body.old.items + 7 < 2 ^ 32 }
    ensures { OnOk result (body.new.items ≡ body.old.items ++ forks i q (length body.old.items)) }
{
    let at = body.len() as u32;
    waits(alloc, body, at)?;
    writes_and_exits(alloc, body, i, q)
}

/// A round by its kind, from 0 to 7: `i` is its number, `q` chooses among the files, `w` is how much is written.
fn round_of(
    alloc: Global,
    body: &mut Vec<Statement>,
    kind: u32,
    i: u32,
    q: u32,
    w: u32,
) -> Result<(), Memory>
    requires { length body.old.items + 7 < 2 ^ 32 }
    ensures { OnOk result (body.new.items ≡ body.old.items ++ round_of kind i q w (length body.old.items)) }
{
    match kind {
        0 => names(alloc, body, 2, CallKind::Mkdir, &[], directory(alloc, q)?),
        1 => writes_file(alloc, body, q, w),
        2 => names(alloc, body, 2, CallKind::Unlink, &[], file(alloc, q)?),
        3 => {
            let (old, new) = (file(alloc, q)?, inside(alloc, q)?);
            names_two(alloc, body, 2, CallKind::Rename, old, new)
        }
        4 => fills_pipe(alloc, body),
        5 => forks(alloc, body, i, q),
        6 => names(alloc, body, 2, CallKind::Stat, &[], inside(alloc, q)?),
        _ => {
            let (old, new) = (file(alloc, q)?, other_file(alloc, q)?);
            names_two(alloc, body, 2, CallKind::Link, old, new)
        }
    }
}

/// Adds the round that a state of the generator chooses, the `i`-th from 0.
pub fn round(alloc: Global, body: &mut Vec<Statement>, i: u32, state: u32) -> Result<(), Memory>
    requires { length body.old.items + 7 < 2 ^ 32 }
    ensures { OnOk result (body.new.items ≡ body.old.items ++ round i state (length body.old.items)) }
{
    round_of(alloc, body, choice_of(state) % 8, i, i % 16, state % 20000)
}
