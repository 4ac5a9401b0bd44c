//! The law of pipes under all forty-three calls. It is the contract of a function that does nothing.

ghost use Rattle.std.specs.Prelude.{◌≡◌, ◌⊎◌, ◌<◌, ℕ, ℤ, Some, length};
ghost use Rattle.kabi_types.specs.Arguments.{count_of};
ghost use Rattle.kabi_types.specs.declared.calls.Call.{Call};
ghost use Rattle.kabi_types.specs.declared.calls.Call.TheVariants.{Read, Write};
ghost use Rattle.kabi_types.specs.declared.scripts.Script.{Script};
ghost use Rattle.posix_defs.specs.Pipe.{Pipe};
ghost use Rattle.posix_defs.specs.Plain.{Plain};
ghost use Rattle.posix_defs.specs.Machine.{machine};
ghost use Rattle.posix_defs.specs.Files.Descriptions.{OnPipe};
ghost use Rattle.posix_defs.specs.Files.State.{pipe_there};
ghost use Rattle.posix_defs.specs.Calls.Opened.{Opened, opened_at};
ghost use Rattle.posix_defs.specs.Calls.Writing.{bytes_left};
ghost use Rattle.machine_laws.specs.FileSteps.{LeadsTo};
ghost use Rattle.machine_laws.specs.Queueing.{HasBytes, NoneGoes, PutsBehind, Queues, TakesFirst};

/// Whoever writes to a pipe, and by whatever descriptor, puts as many bytes behind the others as the call tells; whoever
/// reads it takes as many from the front as the call tells, and finds them in memory. As long as no description goes, no
/// other call changes the bytes of a pipe that is there, nor anything of one that `pipe` made: so it is of a FIFO too.
pub fn what_is_written_to_a_pipe_is_read_in_order()
    ensures put { (script : Script) (plain : Plain) (pid : ℕ) (fd addr n : ℤ) (done : ℕ) (opened : Opened) (place : ℕ) (pipe : Pipe)
        → opened_at plain.files pid fd ≡ Some opened → opened.is.target ≡ OnPipe place → pipe_there plain.files place ≡ Some pipe
        → PutsBehind place pipe done (bytes_left plain pid addr (count_of n) done) (machine script plain pid (Write fd addr n done)) }
    ensures taken { (script : Script) (plain : Plain) (pid : ℕ) (fd addr n : ℤ) (opened : Opened) (place : ℕ) (pipe : Pipe)
        → opened_at plain.files pid fd ≡ Some opened → opened.is.target ≡ OnPipe place → pipe_there plain.files place ≡ Some pipe
        → TakesFirst plain pid addr place pipe (machine script plain pid (Read fd addr n)) }
    ensures others { (script : Script) (plain : Plain) (pid : ℕ) (call : Call) (place : ℕ) (pipe : Pipe) → pipe_there plain.files place ≡ Some pipe
        → LeadsTo (λ next. NoneGoes plain.files next.files → HasBytes next.files place pipe ⊎ Queues plain pid call place) (machine script plain pid call) }
{}
