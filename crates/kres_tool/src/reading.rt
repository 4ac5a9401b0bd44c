ghost use Rattle.std.specs.Prelude.{◌≡◌, ◌≤◌, IfOk};
ghost use Rattle.kres_tool.specs.Read.{HasRead, IsReadAs, Says};

use crate::text::Text;
use kabi_types::{Memory, Script, ScriptFault};
use kio_ports::Source;
use script_parse::{ParseError, parse};
use std::alloc::Global;

/// The most bytes that a script may have.
pub const MOST_BYTES: usize = 1048576;

/// How many bytes are taken at a time at most.
const PIECE: usize = 4096;

/// Reads a source to its end, or to the byte that is too many for a script.
pub fn read_text<S: Source>(alloc: Global, source: &mut S) -> Result<Text, Memory>
    ensures read { IfOk result (λ text. HasRead text (S.left source.old) (S.left source.new) (S.faults source.old) (S.faults source.new)) }
    ensures never_falls { S.faults source.old ≤ S.faults source.new }
{
    let mut text = Vec::new(alloc);
    let mut piece = [0; PIECE];
    while text.len() <= MOST_BYTES {
        let wanted = PIECE.min(MOST_BYTES + 1 - text.len());
        match source.take(&mut piece[..wanted]) {
            Ok(0) => return Ok(Text::Read(text)),
            Ok(count) => text.extend_from_slice(&piece[..count])?,
            Err(_) => return Ok(Text::Fault),
        }
    }
    Ok(Text::Read(text))
}

/// What came of reading a script.
#[derive(Drop)]
pub enum Reading {
    /// The script that the text says.
    Script(Script),
    /// Why the text is no script.
    Bad(ScriptFault),
    /// The source failed.
    Broken,
}

/// Reads a script from a source.
pub fn read_script<S: Source>(alloc: Global, source: &mut S) -> Result<Reading, Memory>
    ensures { IfOk result (λ it. IsReadAs it (S.left source.old) (S.left source.new) (S.faults source.old) (S.faults source.new)) }
{
    match read_text(alloc, source)? {
        Text::Read(text) => understand(alloc, text.as_slice()),
        Text::Fault => Ok(Reading::Broken),
    }
}

/// What a text says.
fn understand(alloc: Global, text: &[u8]) -> Result<Reading, Memory>
    ensures { IfOk result (Says text.now) }
{
    match parse(alloc, text) {
        Ok(script) => Ok(Reading::Script(script)),
        Err(ParseError::Bad(fault)) => Ok(Reading::Bad(fault)),
        Err(ParseError::Memory) => Err(Memory),
    }
}
