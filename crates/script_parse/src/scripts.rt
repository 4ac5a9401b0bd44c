//! Reading and printing a script.

ghost use Rattle.std.specs.Prelude.{◌≡◌, ◌≤◌, Ok, length, string_bytes, IfOk};
ghost use Rattle.posix_defs.specs.Canonical.{canonical};
ghost use Rattle.posix_defs.specs.ScriptText.{ReadsText};
ghost use Rattle.posix_defs.specs.ValidScript.{IsValid};
ghost use Rattle.script_read.specs.Reading.{Outcome};

use kabi_types::{FaultKind, Memory, Script, ScriptFault};
use script_print::canonical_text;
use script_read::{ParseError, read};
use std::alloc::Global;

/// The most bytes that a script may have.
const MOST_BYTES: usize = 1048576;

/// The script that a text says. `Bad` is the first line at fault, and on it the fault that is told before its others; a
/// program without `end` is at fault at its first line. `Memory` comes where the host has no memory left. The numbers of a
/// script are in their ranges, and its jumps go to labels.
pub fn parse(alloc: Global, text: &[u8]) -> Result<Script, ParseError>
    ensures reads { Outcome (λ script. script) result (ReadsText text.now) }
    ensures valid { IfOk result IsValid }
{
    if text.len() > MOST_BYTES {
        return Err(ParseError::Bad(ScriptFault {
            line: 0,
            what: FaultKind::TooLong,
        }));
    }
    read(alloc, text)
}

/// The canonical text of a script: the lines of its settings, of who chooses among events, and of its programs, with one
/// blank between words. That of a valid script reads as the same script, where it is no longer than a script may be. An error
/// is want of memory.
pub fn print(alloc: Global, script: &Script) -> Result<String, Memory>
    ensures canonical { IfOk result (λ text. string_bytes text ≡ canonical script.now) }
    ensures reads { IfOk result (λ text. IsValid script.now → length (string_bytes text) ≤ 1048576
        → ReadsText (string_bytes text) (Ok script.now)) }
{
    canonical_text(alloc, script)
}
