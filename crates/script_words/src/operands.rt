//! The operands of calls: values and texts, each where the call wants it.

ghost use Rattle.std.specs.Prelude.{◌≡◌, ◌⊎◌, ◌∷◌, [], Ok, Err, IfErr};
ghost use Rattle.script_words.specs.Telling.{Tells, BothTell, TellOneOfEach, least_with};
ghost use Rattle.posix_defs.specs.ScriptLines as spec;
ghost use Rattle.posix_defs.specs.ScriptValues.{each};
ghost use Rattle.posix_defs.specs.ScriptValues as values;

use crate::values::{least, path, stored, value};
use crate::{Refused, Shape, Word};
use kabi_types::{FaultKind, Operand, Operands, Text, Texts};
use std::alloc::Global;

/// A fault beside those before it: the least is told.
pub fn with_least(fault: Option<FaultKind>, kind: FaultKind) -> FaultKind
    ensures { result ≡ least_with fault kind }
{
    match fault {
        None => kind,
        Some(before) => least(before, kind),
    }
}

/// Two parts of a line, or the least of their faults.
fn both<A: Drop, B: Drop>(
    first: Result<A, Refused>,
    second: Result<B, Refused>,
) -> Result<(A, B), Refused>
    ensures said { BothTell first second result }
    ensures fails { IfErr result (λ refused. (first ≡ Err refused) ⊎ (second ≡ Err refused)) }
{
    match (first, second) {
        (Ok(first), Ok(second)) => Ok((first, second)),
        (Err(Refused::Memory), _) | (_, Err(Refused::Memory)) => Err(Refused::Memory),
        (Err(Refused::Fault(first)), Err(Refused::Fault(second))) => {
            Err(Refused::Fault(least(first, second)))
        }
        (Err(fault), Ok(_)) | (Ok(_), Err(fault)) => Err(fault),
    }
}

/// Two values, or the least of their faults.
pub fn two_operands(first: &Word, second: &Word) -> Result<(Operand, Operand), FaultKind>
    ensures { result ≡ values.both (values.value first.now) (values.value second.now) }
{
    match (value(first), value(second)) {
        (Ok(first), Ok(second)) => Ok((first, second)),
        (Err(first), Err(second)) => Err(least(first, second)),
        (Err(fault), Ok(_)) | (Ok(_), Err(fault)) => Err(fault),
    }
}

/// Two paths.
fn two_texts(alloc: Global, first: &Word, second: &Word) -> Result<(Text, Text), Refused>
    ensures { Tells (λ said. said) result (λ said. said ≡ values.both (values.path first.now) (values.path second.now)) }
{
    both(path(alloc, first), path(alloc, second))
}

/// The values of words, or the least of their faults.
fn operands_of(alloc: Global, words: &[Word]) -> Result<Vec<Operand>, Refused>
    ensures { Tells (λ said. said.items) result (λ said. said ≡ each values.value words.now) }
{
    let mut said = Vec::new(alloc);
    let mut fault = None;
    let mut rest = words;
    while let Some((word, next)) = rest.split_first() {
        match value(word) {
            Ok(operand) => said.push(operand)?,
            Err(kind) => fault = Some(with_least(fault, kind)),
        }
        rest = next;
    }
    match fault {
        None => Ok(said),
        Some(kind) => Err(Refused::Fault(kind)),
    }
}

/// Values and no texts.
fn values_only(alloc: Global, values: Vec<Operand>) -> (Operands, Texts)
    ensures { result ≡ spec.values_only values.items }
{
    (Operands::from_vec(values), Texts::from_vec(Vec::new(alloc)))
}

/// Just so many values.
fn counted(alloc: Global, count: u32, words: &[Word]) -> Result<(Operands, Texts), Refused>
    ensures { Tells (λ said. said) result (λ said. said ≡ spec.counted count words.now) }
{
    if words.len() == count as usize {
        Ok(values_only(alloc, operands_of(alloc, words)?))
    } else {
        Err(Refused::Fault(FaultKind::UnknownWord))
    }
}

/// A timeout, and up to eight pairs of a descriptor and its events.
fn pairs(alloc: Global, words: &[Word]) -> Result<(Operands, Texts), Refused>
    ensures { Tells (λ said. said) result (λ said. said ≡ spec.pairs words.now) }
{
    if words.len() % 2 != 1 {
        return Err(Refused::Fault(FaultKind::UnknownWord));
    }
    let values = operands_of(alloc, words)?;
    if values.len() <= 17 {
        Ok(values_only(alloc, values))
    } else {
        Err(Refused::Fault(FaultKind::OutOfRange))
    }
}

/// One value and one text.
fn one_of_each(alloc: Global, value: Operand, text: Text) -> Result<(Operands, Texts), Refused>
    ensures { Tells (λ said. said) result (λ said. said ≡ Ok (value ∷ [], text ∷ [])) }
{
    let mut values = Vec::new(alloc);
    values.push(value)?;
    let mut texts = Vec::new(alloc);
    texts.push(text)?;
    Ok((Operands::from_vec(values), Texts::from_vec(texts)))
}

/// A value and a text, as they were read.
fn value_and_text(
    alloc: Global,
    value: Result<Operand, FaultKind>,
    text: Result<Text, Refused>,
) -> Result<(Operands, Texts), Refused>
    ensures { TellOneOfEach value text result }
{
    let (value, text) = both(value.map_err(Refused::Fault), text)?;
    one_of_each(alloc, value, text)
}

fn one_path(alloc: Global, words: &[Word]) -> Result<(Operands, Texts), Refused>
    ensures { Tells (λ said. said) result (λ said. said ≡ spec.one_path words.now) }
{
    match words {
        [word] => {
            let mut texts = Vec::new(alloc);
            texts.push(path(alloc, word)?)?;
            Ok((Operands::from_vec(Vec::new(alloc)), Texts::from_vec(texts)))
        }
        _ => Err(Refused::Fault(FaultKind::UnknownWord)),
    }
}

fn two_paths(alloc: Global, words: &[Word]) -> Result<(Operands, Texts), Refused>
    ensures { Tells (λ said. said) result (λ said. said ≡ spec.two_paths words.now) }
{
    match words {
        [first, second] => {
            let (first, second) = two_texts(alloc, first, second)?;
            let mut texts = Vec::new(alloc);
            texts.push(first)?;
            texts.push(second)?;
            Ok((Operands::from_vec(Vec::new(alloc)), Texts::from_vec(texts)))
        }
        _ => Err(Refused::Fault(FaultKind::UnknownWord)),
    }
}

fn path_value(alloc: Global, words: &[Word]) -> Result<(Operands, Texts), Refused>
    ensures { Tells (λ said. said) result (λ said. said ≡ spec.path_value words.now) }
{
    match words {
        [first, second] => value_and_text(alloc, value(second), path(alloc, first)),
        _ => Err(Refused::Fault(FaultKind::UnknownWord)),
    }
}

fn value_path(alloc: Global, words: &[Word]) -> Result<(Operands, Texts), Refused>
    ensures { Tells (λ said. said) result (λ said. said ≡ spec.value_path words.now) }
{
    match words {
        [first, second] => value_and_text(alloc, value(first), path(alloc, second)),
        _ => Err(Refused::Fault(FaultKind::UnknownWord)),
    }
}

fn value_bytes(alloc: Global, words: &[Word]) -> Result<(Operands, Texts), Refused>
    ensures { Tells (λ said. said) result (λ said. said ≡ spec.value_bytes words.now) }
{
    match words {
        [first, second] => value_and_text(alloc, value(first), stored(alloc, second)),
        _ => Err(Refused::Fault(FaultKind::UnknownWord)),
    }
}

/// The operands that the words of a call say.
pub fn operands_said(
    alloc: Global,
    shape: Shape,
    words: &[Word],
) -> Result<(Operands, Texts), Refused>
    ensures { Tells (λ said. said) result (λ said. said ≡ spec.operands_said shape words.now) }
{
    match shape {
        Shape::Values(count) => counted(alloc, count, words),
        Shape::OnePath => one_path(alloc, words),
        Shape::TwoPaths => two_paths(alloc, words),
        Shape::PathValue => path_value(alloc, words),
        Shape::ValuePath => value_path(alloc, words),
        Shape::ValueBytes => value_bytes(alloc, words),
        Shape::Pairs => pairs(alloc, words),
    }
}
