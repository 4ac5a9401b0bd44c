//! Where the reader of a script stands: outside programs, or in one that is open.

ghost use Rattle.std.specs.Prelude.{◌≡◌, ◌≤◌, length, Ok, Err, Some, None, MatchResult};
ghost use Rattle.script_read.specs.LabelPlaces.{placed_body};
ghost use Rattle.script_words.specs.Telling.{Tells};
ghost use Rattle.script_read.specs.Reading.{Outcome, Sets, TakesLine, lines_in, refusal_at, now_at};
ghost use Rattle.script_read.specs.Drafting as spec;
ghost use Rattle.posix_defs.specs.ScriptValues.{with};

use crate::drafts::Draft;
use crate::places::placed_body;
use crate::settings::said_at_top;
use crate::statements::said_in_program;
use crate::{AtTop, InProgram, ParseError, Refused, Spoken, Stated, Word};
use kabi_types::{FaultKind, Name27, Script, ScriptFault};
use script_words::line_words;
use std::alloc::Global;
use std::marker::Model;

/// The program that is open: its line, its name, and what its lines say so far.
#[derive(Drop)]
struct Opened {
    line: u32,
    name: Name27,
    said: Vec<Stated>,
}

impl Model for Opened {
    ghost use Rattle.script_read.specs.Drafting.{Opened};

    ghost Value = { Opened };

    ghost view = { λ o. record { line = o.line; name = o.name; said = o.said.items } };
}

/// What is read so far.
#[derive(Drop)]
pub struct State {
    draft: Draft,
    opened: Option<Opened>,
}

impl Model for State {
    ghost use Rattle.script_read.specs.Drafting.{State};

    ghost Value = { State };

    ghost view = { λ s. record { draft = s.draft; opened = s.opened } };
}

/// Why this line isn't taken.
fn at_line(line: u32, refused: Refused) -> ParseError
    ensures { result ≡ refusal_at line refused }
{
    match refused {
        Refused::Fault(what) => ParseError::Bad(ScriptFault { line, what }),
        Refused::Memory => ParseError::Memory,
    }
}

impl Opened {
    /// One more line of the program.
    fn add(&mut self, line: u32, said: Result<Spoken, FaultKind>) -> Result<(), ParseError>
        ensures { Outcome (λ _. self.new) result (λ now. now ≡ Ok (spec.with_line self.old (record { line = line; said = said }))) }
    {
        self.said.push(Stated { line, said })?;
        Ok(())
    }

    /// What the words of a line add; whether the program, which is added to the draft, ends there.
    fn take_words(
        &mut self,
        alloc: Global,
        draft: &mut Draft,
        line: u32,
        words: &[Word],
    ) -> Result<bool, ParseError>
        requires { length self.old.said ≤ 4294967295 }
        ensures { Outcome (now_at draft.new self.new) result (λ next. next ≡ spec.step_from draft.old (Some self.old) line (Ok words.now)) }
    {
        match said_in_program(alloc, words) {
            Ok(InProgram::Silent) => Ok(false),
            Ok(InProgram::Says(spoken)) => {
                self.add(line, Ok(spoken))?;
                Ok(false)
            }
            Ok(InProgram::Ends) => {
                self.close(alloc, draft)?;
                Ok(true)
            }
            Err(Refused::Fault(kind)) => {
                self.add(line, Err(kind))?;
                Ok(false)
            }
            Err(Refused::Memory) => Err(ParseError::Memory),
        }
    }

    /// The program ends.
    fn close(&mut self, alloc: Global, draft: &mut Draft) -> Result<(), ParseError>
        requires { length self.old.said ≤ 4294967295 }
        ensures { Outcome (λ _. spec.outside draft.new) result (λ next. next ≡ spec.closed draft.old self.old.name (placed_body self.old.said)) }
    {
        let body = placed_body(alloc, &mut self.said)?;
        draft.add_program(self.name.copy(), body)?;
        Ok(())
    }
}

impl State {
    /// Nothing is read.
    pub fn new(alloc: Global) -> State
        ensures { result ≡ spec.at_start }
    {
        State {
            draft: Draft::new(alloc),
            opened: None,
        }
    }

    /// A program begins.
    fn begin(&mut self, alloc: Global, line: u32, name: Name27) -> Result<(), FaultKind>
        ensures { Sets result self.new (with (spec.within self.old.draft) (spec.begin self.old.draft line name)) }
    {
        self.draft.may_begin(name.items())?;
        let said = Vec::new(alloc);
        self.opened = Some(Opened { line, name, said });
        Ok(())
    }

    /// A line outside programs.
    fn step_at_top(&mut self, alloc: Global, line: u32, said: AtTop) -> Result<(), FaultKind>
        requires { self.old.opened ≡ None }
        ensures { Sets result self.new (spec.step_at_top self.old.draft line said) }
    {
        match said {
            AtTop::Silent => Ok(()),
            AtTop::Sets(setting) => self.draft.set(setting),
            AtTop::Begins(name) => self.begin(alloc, line, name),
        }
    }

    /// What the words of a line outside programs say.
    fn words_at_top(&mut self, alloc: Global, line: u32, words: &[Word]) -> Result<(), Refused>
        requires { self.old.opened ≡ None }
        ensures { Tells (λ _. self.new) result (λ next. next ≡ spec.top_added self.old.draft line (Ok words.now)) }
    {
        let said = said_at_top(alloc, words)?;
        self.step_at_top(alloc, line, said)?;
        Ok(())
    }

    /// What the words of a line outside programs add.
    fn take_at_top(&mut self, alloc: Global, line: u32, words: &[Word]) -> Result<(), ParseError>
        requires { self.old.opened ≡ None }
        ensures { Outcome (λ _. self.new) result (λ next. next ≡ spec.step_from self.old.draft None line (Ok words.now)) }
    {
        match self.words_at_top(alloc, line, words) {
            Ok(()) => Ok(()),
            Err(refused) => Err(at_line(line, refused)),
        }
    }

    /// What the words of a line add.
    fn take_words(&mut self, alloc: Global, line: u32, words: &[Word]) -> Result<(), ParseError>
        requires { lines_in self.old ≤ 4294967295 }
        ensures { Outcome (λ _. self.new) result (λ next. next ≡ spec.step self.old line (Ok words.now)) }
    {
        let Some(opened) = &mut self.opened else {
            return self.take_at_top(alloc, line, words);
        };
        if opened.take_words(alloc, &mut self.draft, line, words)? {
            self.opened = None;
        }
        Ok(())
    }

    /// What a line without words adds, which has this fault.
    fn take_fault(&mut self, line: u32, what: FaultKind) -> Result<(), ParseError>
        ensures { Outcome (λ _. self.new) result (λ next. next ≡ spec.step self.old line (Err what)) }
    {
        match &mut self.opened {
            None => Err(ParseError::Bad(ScriptFault { line, what })),
            Some(opened) => opened.add(line, Err(what)),
        }
    }

    /// What a line adds.
    pub fn take_line(&mut self, alloc: Global, line: u32, text: &[u8]) -> Result<(), ParseError>
        requires { lines_in self.old ≤ 4294967295 }
        ensures { Outcome (λ _. self.new) result (TakesLine self.old line text.now) }
    {
        match line_words(alloc, text) {
            Ok(words) => self.take_words(alloc, line, words.as_slice()),
            Err(Refused::Fault(what)) => self.take_fault(line, what),
            Err(Refused::Memory) => Err(ParseError::Memory),
        }
    }

    /// Whether the text may end here.
    pub fn may_end(&self) -> Result<(), ScriptFault>
        ensures { MatchResult result (λ _. spec.finish self.now ≡ Ok (spec.drafted_script self.now.draft)) (λ fault. spec.finish self.now ≡ Err fault) }
    {
        if let Some(opened) = &self.opened {
            let line = opened.line;
            return Err(ScriptFault {
                line,
                what: FaultKind::Unended,
            });
        }
        if self.draft.has_program(b"init") {
            Ok(())
        } else {
            Err(ScriptFault {
                line: 0,
                what: FaultKind::NoInit,
            })
        }
    }

    /// The script, where the text may end.
    pub fn into_script(self) -> Script
        ensures { result ≡ spec.drafted_script self.draft }
    {
        self.draft.into_script()
    }
}
