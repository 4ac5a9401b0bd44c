//! The places of labels, and the statements that jump there.

ghost use Rattle.std.specs.Prelude.{◌≡◌, ◌≤◌, ℕ, List, length, vec_len, IfOk, OnOk};
ghost use Rattle.indexmap.specs.IndexMap.{get};
ghost use Rattle.script_words.specs.Telling.{Tells};
ghost use Rattle.script_read.specs.Reading.{TellsBody};
ghost use Rattle.script_read.specs.LabelPlaces as spec;
ghost use Rattle.script_read.specs.LabelPlaces.{place_from};

use crate::{ParseError, Spoken, Stated};
use indexmap::IndexMap;
use kabi_types::{FaultKind, Memory, Name27, ScriptFault, Statement};
use std::alloc::Global;

/// Notes the place of a label, unless one of its name stood before.
fn note(places: &mut IndexMap<Name27, u32>, name: &Name27, place: u32) -> Result<(), Memory>
    ensures { OnOk result ((other : List ℕ) → get ⟦<Name27 as PartialEq>⟧.eq places.new other ≡ spec.noted other name.now place (get ⟦<Name27 as PartialEq>⟧.eq places.old other)) }
{
    if !places.contains_key(name) {
        places.insert(name.copy(), place)?;
    }
    Ok(())
}

/// Notes the label that a line states, if it states one.
fn note_label(places: &mut IndexMap<Name27, u32>, stated: &Stated, place: u32) -> Result<(), Memory>
    ensures { OnOk result ((other : List ℕ) → get ⟦<Name27 as PartialEq>⟧.eq places.new other ≡ spec.noted_in other stated.now.said place (get ⟦<Name27 as PartialEq>⟧.eq places.old other)) }
{
    match &stated.said {
        Ok(Spoken::Label(name)) => note(places, name, place),
        Ok(_) | Err(_) => Ok(()),
    }
}

/// The place of the first label of each name.
fn places_of(alloc: Global, lines: &[Stated]) -> Result<IndexMap<Name27, u32>, Memory>
    requires { length lines.now ≤ 4294967295 }
    ensures { IfOk result (λ places. (name : List ℕ) → get ⟦<Name27 as PartialEq>⟧.eq places name ≡ place_from 0 name lines.now) }
{
    let mut places = IndexMap::new(alloc);
    let mut place = 0;
    let mut rest = lines;
    while let Some((stated, next)) = rest.split_first() {
        note_label(&mut places, stated, place)?;
        place += 1;
        rest = next;
    }
    Ok(places)
}

/// A place to jump to, which has to be later.
fn later(at: u32, place: Option<u32>) -> Result<u32, FaultKind>
    ensures { result ≡ spec.later at place }
{
    match place {
        Some(place) if at < place => Ok(place),
        Some(_) => Err(FaultKind::WrongWay),
        None => Err(FaultKind::NoSuchLabel),
    }
}

/// A place to loop to, which has to be earlier.
fn earlier(at: u32, place: Option<u32>) -> Result<u32, FaultKind>
    ensures { result ≡ spec.earlier at place }
{
    match place {
        Some(place) if place < at => Ok(place),
        Some(_) => Err(FaultKind::WrongWay),
        None => Err(FaultKind::NoSuchLabel),
    }
}

/// The place of a label.
fn noted_place(places: &IndexMap<Name27, u32>, label: &Name27) -> Option<u32>
    ensures { result ≡ get ⟦<Name27 as PartialEq>⟧.eq places.now label.now }
{
    places.get(label).copied()
}

/// A label, which has to be the first of its name.
fn first_label(at: u32, name: Name27, place: Option<u32>) -> Result<Statement, FaultKind>
    ensures { result ≡ spec.first_label at name place }
{
    if place == Some(at) {
        Ok(Statement::Label(name))
    } else {
        Err(FaultKind::TwiceDefined)
    }
}

/// The statement at a place.
fn placed(
    places: &IndexMap<Name27, u32>,
    at: u32,
    said: Result<Spoken, FaultKind>,
) -> Result<Statement, FaultKind>
    ensures { result ≡ spec.placed_in (λ name. get ⟦<Name27 as PartialEq>⟧.eq places.now name) at said }
{
    match said? {
        Spoken::Whole(statement) => Ok(statement),
        Spoken::If {
            left,
            test,
            right,
            label,
        } => {
            let place = later(at, noted_place(places, &label))?;
            Ok(Statement::If {
                left,
                test,
                right,
                place,
            })
        }
        Spoken::Jump(label) => Ok(Statement::Jump(later(at, noted_place(places, &label))?)),
        Spoken::Label(name) => {
            let place = noted_place(places, &name);
            first_label(at, name, place)
        }
        Spoken::Loop(register, label) => {
            let place = earlier(at, noted_place(places, &label))?;
            Ok(Statement::Loop(register, place))
        }
    }
}

/// The statements of lines where the labels have these places, or the fault of the first line that has one. It goes from
/// the last line to the first, so that each statement moves once.
fn statements_of(
    alloc: Global,
    places: &IndexMap<Name27, u32>,
    lines: &mut Vec<Stated>,
) -> Result<Vec<Statement>, ParseError>
    requires { vec_len lines.old ≤ 4294967295 }
    ensures { TellsBody result (spec.body_from (λ name. get ⟦<Name27 as PartialEq>⟧.eq places.now name) 0 lines.old.items) }
{
    let mut body = Vec::new(alloc);
    let mut fault = None;
    while let Some(stated) = lines.pop() {
        let line = stated.line;
        match placed(places, lines.len() as u32, stated.said) {
            Ok(statement) => body.push(statement)?,
            Err(what) => fault = Some(ScriptFault { line, what }),
        }
    }
    match fault {
        None => {
            body.reverse();
            Ok(body)
        }
        Some(fault) => Err(ParseError::Bad(fault)),
    }
}

/// The statements of a program's lines, which are taken out, or the fault of the first line that has one.
pub fn placed_body(alloc: Global, lines: &mut Vec<Stated>) -> Result<Vec<Statement>, ParseError>
    requires { vec_len lines.old ≤ 4294967295 }
    ensures { TellsBody result (spec.placed_body lines.old.items) }
{
    let places = places_of(alloc, lines.as_slice())?;
    statements_of(alloc, &places, lines)
}
