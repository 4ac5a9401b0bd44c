//! What a line of a program says.

ghost use Rattle.std.specs.Prelude.{◌≡◌, ◌∷◌};
ghost use Rattle.script_words.specs.Telling.{Tells};
ghost use Rattle.script_read.specs.Reading.{change_said, if_of};
ghost use Rattle.posix_defs.specs.ScriptLines as spec;

use crate::{InProgram, Refused, Spoken, Word};
use kabi_types::{FaultKind, Operand, Statement, Test};
use script_words::{
    is_word, kind_said, name, only_name, operands_said, register, shape_of, two_operands, value,
};
use std::alloc::Global;

/// A call, and the registers that get its values.
fn call_said(
    alloc: Global,
    first: Option<u8>,
    second: Option<u8>,
    words: &[Word],
) -> Result<Spoken, Refused>
    ensures { Tells (λ said. said) result (λ said. said ≡ spec.call_said first second words.now) }
{
    let Some((word, rest)) = words.split_first() else {
        return Err(Refused::Fault(FaultKind::UnknownWord));
    };
    let Some(kind) = kind_said(word) else {
        return Err(Refused::Fault(FaultKind::UnknownWord));
    };
    let (operands, texts) = operands_said(alloc, shape_of(kind), rest)?;
    Ok(Spoken::Whole(Statement::Invoke {
        kind,
        operands,
        texts,
        first,
        second,
    }))
}

/// A register, and a value.
fn change_said(words: &[Word]) -> Result<(u8, Operand), FaultKind>
    ensures { result ≡ change_said words.now }
{
    match words {
        [target, amount] => Ok((register(target)?, value(amount)?)),
        _ => Err(FaultKind::UnknownWord),
    }
}

fn set_said(words: &[Word]) -> Result<Spoken, Refused>
    ensures { Tells (λ said. said) result (λ said. said ≡ spec.set_said words.now) }
{
    let (target, amount) = change_said(words)?;
    Ok(Spoken::Whole(Statement::Set(target, amount)))
}

fn add_said(words: &[Word]) -> Result<Spoken, Refused>
    ensures { Tells (λ said. said) result (λ said. said ≡ spec.add_said words.now) }
{
    let (target, amount) = change_said(words)?;
    Ok(Spoken::Whole(Statement::Add(target, amount)))
}

fn test_said(word: &Word) -> Result<Test, FaultKind>
    ensures { result ≡ spec.test_said word.now }
{
    if is_word(word, "==") {
        Ok(Test::Eq)
    } else if is_word(word, "!=") {
        Ok(Test::Ne)
    } else if is_word(word, "<") {
        Ok(Test::Lt)
    } else if is_word(word, "<=") {
        Ok(Test::Le)
    } else {
        Err(FaultKind::UnknownWord)
    }
}

/// A jump to this label, where the test holds of the two values.
fn if_of(left: &Word, test: &Word, right: &Word, label: &Word) -> Result<Spoken, Refused>
    ensures { Tells (λ said. said) result (λ said. said ≡ if_of left.now test.now right.now label.now) }
{
    let test = test_said(test)?;
    let label = name(label)?;
    let (left, right) = two_operands(left, right)?;
    Ok(Spoken::If {
        left,
        test,
        right,
        label,
    })
}

fn if_said(words: &[Word]) -> Result<Spoken, Refused>
    ensures { Tells (λ said. said) result (λ said. said ≡ spec.if_said words.now) }
{
    match words {
        [left, test, right, label] => if_of(left, test, right, label),
        _ => Err(Refused::Fault(FaultKind::UnknownWord)),
    }
}

fn jump_said(words: &[Word]) -> Result<Spoken, Refused>
    ensures { Tells (λ said. said) result (λ said. said ≡ spec.jump_said words.now) }
{
    Ok(Spoken::Jump(only_name(words)?))
}

fn label_said(words: &[Word]) -> Result<Spoken, Refused>
    ensures { Tells (λ said. said) result (λ said. said ≡ spec.label_said words.now) }
{
    Ok(Spoken::Label(only_name(words)?))
}

fn loop_said(words: &[Word]) -> Result<Spoken, Refused>
    ensures { Tells (λ said. said) result (λ said. said ≡ spec.loop_said words.now) }
{
    match words {
        [counter, label] => {
            let counter = register(counter)?;
            let label = name(label)?;
            Ok(Spoken::Loop(counter, label))
        }
        _ => Err(Refused::Fault(FaultKind::UnknownWord)),
    }
}

/// A call whose second word may be a register too.
fn call_for_two(
    alloc: Global,
    first: &Word,
    second: &Word,
    rest: &[Word],
    words: &[Word],
) -> Result<Spoken, Refused>
    requires { words.now ≡ first.now ∷ second.now ∷ rest.now }
    ensures { Tells (λ said. said) result (λ said. said ≡ spec.call_for_two first.now second.now rest.now) }
{
    let Some((equals, call)) = rest.split_first() else {
        return call_said(alloc, None, None, words);
    };
    if is_word(equals, "=") {
        let first = register(first)?;
        let second = register(second)?;
        return call_said(alloc, Some(first), Some(second), call);
    }
    call_said(alloc, None, None, words)
}

/// A call, behind the registers that get its values, if they are named.
fn call_for(alloc: Global, first: &Word, rest: &[Word], words: &[Word]) -> Result<Spoken, Refused>
    requires { words.now ≡ first.now ∷ rest.now }
    ensures { Tells (λ said. said) result (λ said. said ≡ spec.call_for first.now rest.now) }
{
    let Some((equals, call)) = rest.split_first() else {
        return call_said(alloc, None, None, words);
    };
    if is_word(equals, "=") {
        let first = register(first)?;
        return call_said(alloc, Some(first), None, call);
    }
    call_for_two(alloc, first, equals, call, words)
}

/// A statement.
fn statement_said(
    alloc: Global,
    first: &Word,
    rest: &[Word],
    words: &[Word],
) -> Result<Spoken, Refused>
    requires { words.now ≡ first.now ∷ rest.now }
    ensures { Tells (λ said. said) result (λ said. said ≡ spec.statement_said first.now rest.now) }
{
    if is_word(first, "set") {
        set_said(rest)
    } else if is_word(first, "add") {
        add_said(rest)
    } else if is_word(first, "if") {
        if_said(rest)
    } else if is_word(first, "jump") {
        jump_said(rest)
    } else if is_word(first, "label") {
        label_said(rest)
    } else if is_word(first, "loop") {
        loop_said(rest)
    } else {
        call_for(alloc, first, rest, words)
    }
}

/// What a line of a program says, by its words: nothing, the end of the program, or a statement. `Fault` is the least of the
/// faults that its words have; `Memory` comes where the host has no memory left.
pub fn said_in_program(alloc: Global, words: &[Word]) -> Result<InProgram, Refused>
    ensures { Tells (λ said. said) result (λ said. said ≡ spec.said_in_program words.now) }
{
    let Some((first, rest)) = words.split_first() else {
        return Ok(InProgram::Silent);
    };
    if is_word(first, "end") {
        return if rest.is_empty() {
            Ok(InProgram::Ends)
        } else {
            Err(Refused::Fault(FaultKind::UnknownWord))
        };
    }
    let said = statement_said(alloc, first, rest, words)?;
    Ok(InProgram::Says(said))
}
