//! The law of offsets in directories. It is the contract of a function that does nothing.

ghost use Rattle.std.specs.Prelude.{◌≡◌, ◌%◌, ℕ, Some, true};
ghost use Rattle.kabi_types.specs.declared.scripts.Script.{Script};
ghost use Rattle.posix_defs.specs.Plain.{Plain};
ghost use Rattle.posix_defs.specs.Tree.{is_directory};
ghost use Rattle.posix_defs.specs.Files.Descriptions.{Description, OnNode, description_at};
ghost use Rattle.machine_laws.specs.Reached.{IsReached};
ghost use Rattle.machine_laws.specs.Texts.{HasTexts};

/// In every machine that is reached the offset of a description that is open on a directory stands between two entries of 32
/// bytes, wherever a `readdir` ended and a seek led.
pub fn offsets_in_directories_stand_between_entries()
    ensures { (script : Script) (plain : Plain) → HasTexts script → IsReached script plain → (place number : ℕ) (description : Description)
        → description_at plain.files.descriptions place ≡ Some description → description.target ≡ OnNode number
        → is_directory plain.files.tree number ≡ true → description.offset % 32 ≡ 0 }
{}
