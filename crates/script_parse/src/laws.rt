//! Laws of the language of scripts. Each is the contract of a function that does nothing.

ghost use Rattle.std.specs.Prelude.{◌≡◌, ◌≤◌, ℕ, List, [], length, Result, Ok, Err, codes};
ghost use Rattle.kabi_types.specs.declared.scripts.FaultKind.TheVariants.{NoInit, UnknownWord, Unended};
ghost use Rattle.kabi_types.specs.declared.scripts.Script.{Script};
ghost use Rattle.kabi_types.specs.declared.scripts.ScriptFault.{ScriptFault};
ghost use Rattle.posix_defs.specs.Canonical.{canonical};
ghost use Rattle.posix_defs.specs.FirstScript.{first_text, first_script};
ghost use Rattle.posix_defs.specs.ScriptText.{ReadsText};
ghost use Rattle.posix_defs.specs.ValidScript.{IsValid};
ghost use Rattle.script_parse.specs.SocketScript.{socket_text, socket_script};

/// A text reads as one script at most and has one fault at most, and never both.
pub fn a_text_reads_in_one_way()
    ensures { (text : List ℕ) (a b : Result Script ScriptFault) → ReadsText text a → ReadsText text b → a ≡ b }
{}

/// Every text reads as a script or has a fault: with the law before, it has one exactly where it reads as none.
pub fn every_text_reads_or_has_a_fault()
    ensures { (text : List ℕ) → (outcome : Result Script ScriptFault) × ReadsText text outcome }
{}

/// Worked examples: no bytes have no program `init`; the text of the first example says its script, and so does one that
/// asks for a socket; a third line that is no statement is at fault; a program without an end is at fault at its first line.
pub fn worked_texts_read()
    ensures nothing { ReadsText [] (Err (record { line = 0; what = NoInit })) }
    ensures first { ReadsText first_text (Ok first_script) }
    ensures unknown { ReadsText (codes "program init\nlabel a\njmp a\nend\n") (Err (record { line = 3; what = UnknownWord })) }
    ensures socket { ReadsText socket_text (Ok socket_script) }
    ensures unended { ReadsText (codes "heap 8192\nprogram init\njmp a\n") (Err (record { line = 2; what = Unended })) }
{}

/// Every script that a text says keeps what scripts promise: its numbers are in their ranges, and its jumps go to labels.
pub fn what_reads_is_valid()
    ensures { (text : List ℕ) (script : Script) → ReadsText text (Ok script) → IsValid script }
{}

/// The canonical text of a script reads as that script, where it isn't too long for a script.
pub fn canonical_text_reads_as_its_script()
    ensures { (script : Script) → IsValid script → length (canonical script) ≤ 1048576 → ReadsText (canonical script) (Ok script) }
{}

/// A script that was read, printed and read again is the same script, so that it is printed the same.
pub fn printing_again_is_the_same()
    ensures { (text : List ℕ) (script again : Script) → ReadsText text (Ok script) → length (canonical script) ≤ 1048576
        → ReadsText (canonical script) (Ok again) → (again ≡ script) × (canonical again ≡ canonical script) }
{}
