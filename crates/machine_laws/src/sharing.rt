//! The law of shared descriptions under all forty-three calls. It is the contract of a function that does nothing.

ghost use Rattle.std.specs.Prelude.{◌≡◌, ◌≤◌, ℕ, ℤ, pos, Some, length};
ghost use Rattle.kabi_types.specs.declared.calls.Call.TheVariants.{Dup, Fcntl, Fork, Lseek, Read};
ghost use Rattle.kabi_types.specs.declared.scripts.Script.{Script};
ghost use Rattle.posix_defs.specs.Plain.{Plain, last_pid};
ghost use Rattle.posix_defs.specs.Machine.{machine};
ghost use Rattle.posix_defs.specs.Files.Descriptions.{OnNode};
ghost use Rattle.posix_defs.specs.Calls.Opened.{Opened, opened_at};
ghost use Rattle.machine_laws.specs.Sharing.{InheritsTold, SeesTold, SharesTold};

/// After `dup`, and after `fcntl` with F_DUPFD, two descriptors name one description, and after `fork` each descriptor of the
/// child and its parent's do; and where two name one, of whichever processes, a seek or a read of a file through one moves
/// the offset of the other.
pub fn an_offset_is_shared()
    ensures dup { (script : Script) (plain : Plain) (pid : ℕ) (fd : ℤ) (opened : Opened)
        → opened_at plain.files pid fd ≡ Some opened → SharesTold plain pid fd opened (machine script plain pid (Dup fd)) }
    ensures fcntl { (script : Script) (plain : Plain) (pid : ℕ) (fd from : ℤ) (opened : Opened)
        → opened_at plain.files pid fd ≡ Some opened → SharesTold plain pid fd opened (machine script plain pid (Fcntl fd (pos 0) from)) }
    ensures fork { (script : Script) (plain : Plain) (pid : ℕ)
        → length plain.files.descriptors ≡ last_pid plain → pid ≤ last_pid plain → InheritsTold plain pid (machine script plain pid Fork) }
    ensures sought { (script : Script) (plain : Plain) (pid other : ℕ) (fd to offset whence : ℤ) (opened : Opened)
        → opened_at plain.files pid fd ≡ Some opened → opened_at plain.files other to ≡ Some opened
        → SeesTold other to opened 0 (machine script plain pid (Lseek fd offset whence)) }
    ensures read { (script : Script) (plain : Plain) (pid other : ℕ) (fd to addr n : ℤ) (number : ℕ) (opened : Opened)
        → opened_at plain.files pid fd ≡ Some opened → opened.is.target ≡ OnNode number → opened_at plain.files other to ≡ Some opened
        → SeesTold other to opened opened.is.offset (machine script plain pid (Read fd addr n)) }
{}
