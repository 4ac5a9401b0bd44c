//! Laws of all that every machine keeps of files that is reached. Each is the contract of a function that does nothing.

ghost use Rattle.std.specs.Prelude.{List};
ghost use Rattle.kabi_types.specs.declared.entries.Entry.{Entry};
ghost use Rattle.kabi_types.specs.declared.scripts.Script.{Script};
ghost use Rattle.posix_defs.specs.History.{IsRun, Past};
ghost use Rattle.posix_defs.specs.Plain.{Plain};
ghost use Rattle.posix_defs.specs.ValidScript.{IsValid};
ghost use Rattle.posix_defs.specs.Files.Whole.{IsWhole};
ghost use Rattle.machine_laws.specs.Reached.{IsReached};
ghost use Rattle.machine_laws.specs.Bytes.{HasBytes};
ghost use Rattle.machine_laws.specs.Texts.{HasTexts};

/// Every machine that all forty-three calls, refusals and kills lead to is whole, if the script's disk has its size and its
/// programs name paths without a zero byte: who is named is there and who is there is named; pipes count their ends; sockets
/// are linked, and each is named or waits; the tree is one, and a file without links is open; whoever lives works in a
/// directory. And what memory, pipes and sockets hold are bytes.
pub fn every_machine_that_is_reached_is_whole()
    ensures whole { (script : Script) (plain : Plain) → HasTexts script → IsReached script plain → IsWhole script plain }
    ensures bytes { (script : Script) (plain : Plain) → HasTexts script → IsReached script plain → HasBytes plain }
{}

/// The programs of a script that is valid name paths without a zero byte, and store bytes.
pub fn valid_scripts_have_texts()
    ensures { (script : Script) → IsValid script → HasTexts script }
{}

/// So in every history of a valid script: whatever its calls were answered, whoever was killed and whatever was refused, the
/// machine that its entries lead to is whole.
pub fn the_machine_of_a_history_is_whole()
    ensures reached { (script : Script) (history : List Entry) (past : Past) → IsRun script history past → IsReached script past.plain }
    ensures whole { (script : Script) (history : List Entry) (past : Past) → IsValid script → IsRun script history past
        → IsWhole script past.plain }
{}
