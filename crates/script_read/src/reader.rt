//! Reading a text to its end.

ghost use Rattle.std.specs.Prelude.{◌≡◌, ◌≢◌, ◌==◌, ◌∷◌, ◌++◌, ◌≤◌, false, All, MatchOption, length};
ghost use Rattle.std.specs.List.{slice_split};
ghost use Rattle.script_read.specs.Reading.{Outcome};
ghost use Rattle.script_read.specs.Drafting.{Reads, at_start, drafted_script};

use crate::ParseError;
use crate::state::State;
use kabi_types::Script;
use script_words::cut_at;
use std::alloc::Global;

/// Reads a text line by line, to its end.
fn read_lines(state: &mut State, alloc: Global, text: &[u8]) -> Result<(), ParseError>
    requires start { state.old ≡ at_start }
    requires short { length text.now ≤ 1048576 }
    ensures { Outcome (λ _. drafted_script state.new.draft) result (Reads at_start 1 (slice_split (λ byte. byte == 10) text.now)) }
{
    let mut line = 1;
    let mut rest = text;
    while let Some((first, next)) = cut_at(rest, b'\n') {
        state.take_line(alloc, line, first)?;
        line += 1;
        rest = next;
    }
    state.take_line(alloc, line, rest)?;
    state.may_end().map_err(ParseError::Bad)
}

/// The script of a text that isn't too long, read line by line. `Bad` is the first line at fault, and on it the fault that is
/// told before its others; `Memory` comes where the host has no memory left.
pub fn read(alloc: Global, text: &[u8]) -> Result<Script, ParseError>
    requires { length text.now ≤ 1048576 }
    ensures { Outcome (λ script. script) result (Reads at_start 1 (slice_split (λ byte. byte == 10) text.now)) }
{
    let mut state = State::new(alloc);
    match read_lines(&mut state, alloc, text) {
        Ok(()) => Ok(state.into_script()),
        Err(error) => {
            drop(state);
            Err(error)
        }
    }
}
