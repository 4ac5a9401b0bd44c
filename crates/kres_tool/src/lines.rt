//! The line of a text that is no script.

ghost use Rattle.std.specs.Prelude.{◌≡◌, IfOk, string_bytes};
ghost use Rattle.posix_defs.specs.Lines.{fault_line, fault_text};

use kabi_types::{FaultKind, ScriptFault};
use std::alloc::{AllocError, Global};

/// The line that tells the fault of a text.
pub fn fault_line(alloc: Global, fault: ScriptFault) -> Result<String, AllocError>
    ensures { IfOk result (λ text. string_bytes text ≡ fault_line fault) }
{
    let line = fault.line;
    let what = fault_text(fault.what);
    let mut text = String::new(alloc);
    write!(&mut text, "bad script: line {line}: {what}\n")?;
    Ok(text)
}

fn fault_text(what: FaultKind) -> &'static str
    ensures { result.now ≡ fault_text what }
{
    match what {
        FaultKind::NotUtf8 => "not utf-8",
        FaultKind::UnknownWord => "unknown word",
        FaultKind::BadNumber => "bad number",
        FaultKind::OutOfRange => "out of range",
        FaultKind::NoSuchLabel => "no such label",
        FaultKind::WrongWay => "wrong way",
        FaultKind::TwiceDefined => "twice defined",
        FaultKind::Unended => "unended",
        FaultKind::NoInit => "no init",
        FaultKind::TooLong => "too long",
    }
}
