//! Laws of stores of which a call changes what is open, the tree with what is cached of it, or names of sockets: they go on. Each is
//! the contract of a function that does nothing.

ghost use Rattle.answer_laws.specs.KeptLocks.{LeavesLocks};
ghost use Rattle.kabi_types.specs.declared.calls.Call.{Call};
ghost use Rattle.kabi_types.specs.declared.scripts.Control.{Control};
ghost use Rattle.kabi_types.specs.declared.scripts.Script.{Script};
ghost use Rattle.kabi_types.specs.declared.replies.Reply.{Reply};
ghost use Rattle.lock_table.specs.Chain.{HoldsLocks};
ghost use Rattle.store_objects.specs.FileMoves.{CachesWithin, FileMoves};
ghost use Rattle.store_objects.specs.FileWorlds.{HasAnswered, HasBegun, HasTurned, LocksFollow};
ghost use Rattle.store_objects.specs.OpenMoves.{LocksStay};
ghost use Rattle.posix_defs.specs.Answer.{Answer};
ghost use Rattle.posix_defs.specs.Files.State.{HalfOpen};
ghost use Rattle.posix_defs.specs.Plain.{Plain};
ghost use Rattle.posix_defs.specs.Process.{is_alive};
ghost use Rattle.posix_defs.specs.World.{World};
ghost use Rattle.posix_defs.specs.declared.turner.Turned.{Turned};
ghost use Rattle.posix_defs.specs.declared.turner.Turned.TheVariants as turned;
ghost use Rattle.std.specs.Prelude.{◌≡◌, ℕ, Some, true};
ghost use Rattle.store_objects.specs.Objects.{AreKept, Runs};
ghost use Rattle.store_objects.specs.Standing.{IsSound, StandsFor, answered_in, waiting_in};
ghost use Rattle.store_objects.specs.Told.{partly_in};
ghost use Rattle.store_objects.specs.Walking.{Serves};
ghost use Rattle.store_objects.specs.declared.objects.Objects.{Objects};

/// Where of a store only what is open, memory, the tree of files and names of sockets have changed, its objects are kept, who ran
/// runs where he stood, and they stand for each world of which they have what has changed, with its locks.
pub fn a_store_goes_on_with_its_files()
    ensures kept { (script : Script) (old : Objects) (new : Objects) → AreKept script old → FileMoves old new → AreKept script new }
    ensures runs { (old : Objects) (new : Objects) (pid : ℕ) (control : Control) → FileMoves old new → Runs old pid control → Runs new pid control }
    ensures stands { (script : Script) (old : Objects) (new : Objects) (world : World) (next : World)
        → StandsFor script old world → FileMoves old new → HasTurned new world next → HoldsLocks new.heap.locks new.locks next.plain.files.locks
        → StandsFor script new next }
{}

/// Where a call on files has changed a store so, has cached no more than its need has, and was answered in each sound world with a
/// reply, behind which its caller goes on, and the chain of locks follows, the store stands for the worlds that its answers reach.
pub fn a_call_on_files_serves()
    ensures { (script : Script) (old : Objects) (mid : Objects) (new : Objects) (pid : ℕ) (call : Call) (said : Reply) (told : Turned)
        (answer : Plain → Answer)
        → FileMoves old mid → CachesWithin old mid call → told ≡ turned.Done said
        → ((world : World) → StandsFor script mid world → StandsFor script new (answered_in script world pid said))
        → ((world : World) → StandsFor script old world → IsSound world.plain → is_alive world.plain.table pid ≡ true
        → HasAnswered script old mid world pid call (answer world.plain) said)
        → LocksFollow script old mid pid answer said
        → Serves script old pid call answer told new }
{}

/// Where an open of a FIFO has changed a store so, has cached no more than its need has, and has made its end in each sound world, and its
/// caller then sleeps in it, the store stands for the worlds that its answers reach.
pub fn an_open_that_waits_serves()
    ensures { (script : Script) (old : Objects) (mid : Objects) (new : Objects) (pid : ℕ) (call : Call) (opening : HalfOpen) (told : Turned)
        (answer : Plain → Answer)
        → FileMoves old mid → CachesWithin old mid call → told ≡ turned.Part 1
        → ((world : World) → StandsFor script mid world → StandsFor script new (partly_in (waiting_in world pid (Some opening)) pid 1))
        → ((world : World) → StandsFor script old world → IsSound world.plain → is_alive world.plain.table pid ≡ true
        → HasBegun old mid world pid call (answer world.plain) opening)
        → LocksStay old mid → ((plain : Plain) → LeavesLocks plain (answer plain))
        → Serves script old pid call answer told new }
{}
