//! The laws of FIFOs. Each is the contract of a function that does nothing.

ghost use Rattle.std.specs.Prelude.{◌≡◌, ◌≢◌, ◌<◌, ℕ, ℤ, List, None, Some, nat_lt, not, pos};
ghost use Rattle.kabi_types.specs.Arguments.{argument_fault};
ghost use Rattle.kabi_types.specs.declared.calls.Call.{Call};
ghost use Rattle.kabi_types.specs.declared.calls.Call.TheVariants.{Mkfifo, OpenFile};
ghost use Rattle.kabi_types.specs.declared.errnos.Errno.TheVariants.{ENOMEM};
ghost use Rattle.kabi_types.specs.declared.replies.Reply.TheVariants.{Fail, Val};
ghost use Rattle.kabi_types.specs.declared.scripts.Script.{Script};
ghost use Rattle.posix_defs.specs.Answer.{replied};
ghost use Rattle.posix_defs.specs.Ending.{die};
ghost use Rattle.posix_defs.specs.Machine.{blocks, machine};
ghost use Rattle.posix_defs.specs.Pipe.{after_close, opens_of};
ghost use Rattle.posix_defs.specs.Plain.{Plain, answered, boot_plain, with_files};
ghost use Rattle.posix_defs.specs.Files.Closing.{after_closes, after_end_of, all_numbers, target_closed};
ghost use Rattle.posix_defs.specs.Files.Descriptions.{Access, OnPipe, Target, may_write};
ghost use Rattle.posix_defs.specs.Files.State.{Files, HalfOpen, node_of, opening_at, pipe_at, with_opening, with_pipe};
ghost use Rattle.posix_defs.specs.Files.Whole.{AreFifos};
ghost use Rattle.posix_defs.specs.Calls.Opened.{Opened, opened_at};
ghost use Rattle.machine_laws.specs.FileSteps.{LeadsTo};
ghost use Rattle.machine_laws.specs.Reached.{IsReached};
ghost use Rattle.machine_laws.specs.Texts.{HasTexts};
ghost use Rattle.machine_laws.specs.WithoutFifos.{HasNoFifo, LacksMkfifo, machine_without, node_before};

/// In every machine that is reached a FIFO has one pipe at most, and a pipe that is a FIFO's is that of a node that is there and is a
/// FIFO, whoever removed its names since.
pub fn a_fifo_has_one_pipe()
    ensures { (script : Script) (plain : Plain) → HasTexts script → IsReached script plain → AreFifos plain.files }
{}

/// An open that waits for the other side of a FIFO would block exactly where that side wasn't opened since it began to wait, whoever
/// of them is still there; and where it was, the open tells its descriptor and waits no more.
pub fn an_open_wakes_where_the_other_side_was_opened()
    ensures blocks { (script : Script) (plain : Plain) (pid : ℕ) (path : List ℕ) (flags : ℤ) (opening : HalfOpen) (opened : Opened) (place : ℕ)
        → argument_fault (OpenFile path flags) ≡ None → opening_at plain.files pid ≡ Some opening
        → opened_at plain.files pid (pos opening.fd) ≡ Some opened → opened.is.target ≡ OnPipe place
        → blocks (machine script plain pid (OpenFile path flags))
        ≡ not (nat_lt opening.seen (opens_of (pipe_at plain.files place) (not (may_write opened.is.access)))) }
    ensures told { (script : Script) (plain : Plain) (pid : ℕ) (path : List ℕ) (flags : ℤ) (opening : HalfOpen) (opened : Opened) (place : ℕ)
        → argument_fault (OpenFile path flags) ≡ None → opening_at plain.files pid ≡ Some opening
        → opened_at plain.files pid (pos opening.fd) ≡ Some opened → opened.is.target ≡ OnPipe place
        → opening.seen < opens_of (pipe_at plain.files place) (not (may_write opened.is.access))
        → machine script plain pid (OpenFile path flags)
        ≡ replied script (with_files plain (with_opening plain.files pid None)) pid (Val (pos opening.fd)) }
{}

/// A script that makes no FIFO runs as if there could be none: at boot there is none, and so it stays while nobody makes `mkfifo`,
/// as in every machine of a script whose programs don't. Where there is none, each call is answered as if nothing could be one, no open
/// waits, no end of a pipe has a node, to close one changes its pipe alone, and who ends has nothing but its descriptors to close.
pub fn without_mkfifo_all_is_as_before()
    ensures boot { (script : Script) → HasNoFifo (boot_plain script).files }
    ensures stays { (script : Script) (plain : Plain) (pid : ℕ) (call : Call) → HasNoFifo plain.files → ((path : List ℕ) → call ≢ Mkfifo path)
        → LeadsTo (λ next. HasNoFifo next.files) (machine script plain pid call) }
    ensures refused { (script : Script) (plain : Plain) (pid : ℕ) → HasNoFifo plain.files
        → HasNoFifo (answered script plain pid (Fail ENOMEM)).files }
    ensures killed { (plain : Plain) (pid status : ℕ) → HasNoFifo plain.files → HasNoFifo (die plain pid status).files }
    ensures reached { (script : Script) (plain : Plain) → LacksMkfifo script → IsReached script plain → HasNoFifo plain.files }
    ensures same { (script : Script) (plain : Plain) (pid : ℕ) (call : Call) → HasNoFifo plain.files
        → machine script plain pid call ≡ machine_without script plain pid call }
    ensures nodes { (files : Files) (target : Target) → HasNoFifo files → node_of files target ≡ node_before target }
    ensures closed { (files : Files) (access : Access) (place : ℕ) → HasNoFifo files
        → target_closed files access (OnPipe place) ≡ with_pipe files place (after_close (pipe_at files place) (may_write access)) }
    ensures ended { (files : Files) (pid : ℕ) → HasNoFifo files → after_end_of files pid ≡ after_closes files pid all_numbers }
{}
