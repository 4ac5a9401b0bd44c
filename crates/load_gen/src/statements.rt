//! The statements that the rounds consist of.

ghost use Rattle.std.specs.Prelude.{◌≡◌, [], ◌∷◌, ◌++◌, IfOk, OnOk};
ghost use Rattle.posix_defs.specs.Generated.{asks, asks_two, names, exits, number, directory, inside, file, other_file, child_label, parent_label};

use kabi_types::{CallKind, Memory, Name27, Operand, Operands, Statement, Text, Texts};
use std::alloc::Global;

/// Adds a call whose value goes to a register.
pub fn asks(
    alloc: Global,
    body: &mut Vec<Statement>,
    register: u8,
    kind: CallKind,
    values: &[Operand],
) -> Result<(), Memory>
    ensures { OnOk result (body.new.items ≡ body.old.items ++ asks register kind values.now ∷ []) }
{
    body.push(Statement::Invoke {
        kind,
        operands: Operands::from_vec(values.to_vec(alloc)?),
        texts: Texts::from_vec(Vec::new(alloc)),
        first: Some(register),
        second: None,
    })?;
    Ok(())
}

/// Adds a call whose two values go to two registers.
pub fn asks_two(
    alloc: Global,
    body: &mut Vec<Statement>,
    registers: (u8, u8),
    kind: CallKind,
    values: &[Operand],
) -> Result<(), Memory>
    ensures { OnOk result (body.new.items ≡ body.old.items ++ asks_two registers.0 registers.1 kind values.now ∷ []) }
{
    let (first, second) = registers;
    body.push(Statement::Invoke {
        kind,
        operands: Operands::from_vec(values.to_vec(alloc)?),
        texts: Texts::from_vec(Vec::new(alloc)),
        first: Some(first),
        second: Some(second),
    })?;
    Ok(())
}

/// Adds a call that has a text beside its numbers.
pub fn names(
    alloc: Global,
    body: &mut Vec<Statement>,
    register: u8,
    kind: CallKind,
    values: &[Operand],
    text: Text,
) -> Result<(), Memory>
    ensures { OnOk result (body.new.items ≡ body.old.items ++ names register kind values.now (text ∷ []) ∷ []) }
{
    let texts = vec![in alloc; text]?;
    body.push(Statement::Invoke {
        kind,
        operands: Operands::from_vec(values.to_vec(alloc)?),
        texts: Texts::from_vec(texts),
        first: Some(register),
        second: None,
    })?;
    Ok(())
}

/// Adds a call of two paths.
pub fn names_two(
    alloc: Global,
    body: &mut Vec<Statement>,
    register: u8,
    kind: CallKind,
    old: Text,
    new: Text,
) -> Result<(), Memory>
    ensures { OnOk result (body.new.items ≡ body.old.items ++ names register kind [] (old ∷ new ∷ []) ∷ []) }
{
    let texts = vec![in alloc; old, new]?;
    body.push(Statement::Invoke {
        kind,
        operands: Operands::from_vec(Vec::new(alloc)),
        texts: Texts::from_vec(texts),
        first: Some(register),
        second: None,
    })?;
    Ok(())
}

/// Adds the end of a process.
pub fn exits(alloc: Global, body: &mut Vec<Statement>, status: u32) -> Result<(), Memory>
    ensures { OnOk result (body.new.items ≡ body.old.items ++ exits status ∷ []) }
{
    let operands = vec![in alloc; number(status)]?;
    body.push(Statement::Invoke {
        kind: CallKind::Exit,
        operands: Operands::from_vec(operands),
        texts: Texts::from_vec(Vec::new(alloc)),
        first: None,
        second: None,
    })?;
    Ok(())
}

pub fn number(n: u32) -> Operand
    ensures { result ≡ number n }
{
    Operand::Number(i64::from(n))
}

/// The path of a directory.
pub fn directory(alloc: Global, q: u32) -> Result<Text, Memory>
    ensures { IfOk result (λ path. path ≡ directory q) }
{
    let path = format!(in alloc; "/d{q}")?;
    Ok(Text::from_vec(path.into_bytes()))
}

/// The path of the file in a directory.
pub fn inside(alloc: Global, q: u32) -> Result<Text, Memory>
    ensures { IfOk result (λ path. path ≡ inside q) }
{
    let path = format!(in alloc; "/d{q}/f")?;
    Ok(Text::from_vec(path.into_bytes()))
}

/// The path of a file.
pub fn file(alloc: Global, q: u32) -> Result<Text, Memory>
    ensures { IfOk result (λ path. path ≡ file q) }
{
    let path = format!(in alloc; "/f{q}")?;
    Ok(Text::from_vec(path.into_bytes()))
}

/// The path of a file's second name.
pub fn other_file(alloc: Global, q: u32) -> Result<Text, Memory>
    ensures { IfOk result (λ path. path ≡ other_file q) }
{
    let path = format!(in alloc; "/g{q}")?;
    Ok(Text::from_vec(path.into_bytes()))
}

/// Where the child of a round goes on.
pub fn child_label(alloc: Global, i: u32) -> Result<Name27, Memory>
    ensures { IfOk result (λ name. name ≡ child_label i) }
{
    let label = format!(in alloc; "k{i}")?;
    Ok(Name27::of(label.as_bytes()).unwrap())
}

/// Where the parent of a round goes on.
pub fn parent_label(alloc: Global, i: u32) -> Result<Name27, Memory>
    ensures { IfOk result (λ name. name ≡ parent_label i) }
{
    let label = format!(in alloc; "m{i}")?;
    Ok(Name27::of(label.as_bytes()).unwrap())
}
