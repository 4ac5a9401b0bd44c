//! Laws of stores of which a call changes what is open: they go on. Each is the contract of a function that does nothing.

ghost use Rattle.answer_laws.specs.KeptLocks.{LeavesLocks};
ghost use Rattle.fifo_nodes.specs.Chain.{IsChain};
ghost use Rattle.kabi_types.specs.declared.calls.Call.{Call};
ghost use Rattle.kabi_types.specs.declared.scripts.Control.{Control};
ghost use Rattle.kabi_types.specs.declared.scripts.Script.{Script};
ghost use Rattle.kabi_types.specs.declared.replies.Reply.{Reply};
ghost use Rattle.open_laws.specs.Owned.{HasItsOwners};
ghost use Rattle.store_objects.specs.OpenMoves.{OpenMoves};
ghost use Rattle.store_objects.specs.OpenWorlds.{HasReached, RepliesOn};
ghost use Rattle.posix_defs.specs.Answer.{Answer};
ghost use Rattle.posix_defs.specs.Memory.{Frames};
ghost use Rattle.posix_defs.specs.MemoryCalls.{frames_after};
ghost use Rattle.posix_defs.specs.Plain.{Plain};
ghost use Rattle.posix_defs.specs.World.{World};
ghost use Rattle.posix_defs.specs.declared.turner.Turned.{Turned};
ghost use Rattle.posix_defs.specs.declared.turner.Turned.TheVariants as turned;
ghost use Rattle.proc_numbers.specs.Having.{AreListed};
ghost use Rattle.proc_numbers.specs.Naming.{ChangesNumbers};
ghost use Rattle.proc_files.specs.Names.{name_of};
ghost use Rattle.proc_table.specs.Procs.{IsAlive};
ghost use Rattle.proc_table.specs.Table.{Holds};
ghost use Rattle.std.specs.Prelude.{◌≡◌, ℕ, []};
ghost use Rattle.store_objects.specs.Objects.{AreKept, Runs, procs_of};
ghost use Rattle.store_objects.specs.Standing.{Performs, StandsFor, answered_in};
ghost use Rattle.store_objects.specs.declared.objects.Objects.{Objects};

/// Where of a store only what is open has changed, and what a process has in memory, its objects are kept, who ran runs where he
/// stood, and they stand for each world of which they have what has changed, where that has the same locks.
pub fn a_store_goes_on_with_what_is_open()
    ensures kept { (script : Script) (old : Objects) (new : Objects) → AreKept script old → OpenMoves old new → AreKept script new }
    ensures runs { (old : Objects) (new : Objects) (pid : ℕ) (control : Control) → OpenMoves old new → Runs old pid control → Runs new pid control }
    ensures stands { (script : Script) (old : Objects) (new : Objects) (world : World) (next : World)
        → StandsFor script old world → OpenMoves old new → HasReached new world next
        → next.plain.files.locks ≡ world.plain.files.locks → StandsFor script new next }
{}

/// Where a call changes what a process has open that runs, and no socket's name, only what is open has changed of the store; and
/// where its answer is a reply that leaves all memory and all locks, with which the machine's files have become those that the
/// objects have, its caller goes on in that machine.
pub fn a_call_changes_what_a_process_has_open()
    ensures moves { (old : Objects) (new : Objects) (pid : ℕ) → Holds old.heap old.procs → new.procs ≡ old.procs → new.tree ≡ old.tree → new.names ≡ old.names
        → new.fifos ≡ old.fifos → new.locks ≡ old.locks → IsChain old.heap old.fifos → IsAlive (procs_of old) pid → ChangesNumbers old.heap new.heap old.procs pid → AreListed new.heap old.procs → HasItsOwners new.heap []
        → ((key : ℕ) → name_of new.heap.socks key ≡ name_of old.heap.socks key) → OpenMoves old new }
    ensures performs { (script : Script) (old : Objects) (mid : Objects) (new : Objects) (pid : ℕ) (call : Call) (said : Reply) (told : Turned)
        (answer : Plain → Answer)
        → mid.procs ≡ old.procs → ChangesNumbers old.heap mid.heap old.procs pid → OpenMoves old mid
        → ((world : World) → StandsFor script old world
        → RepliesOn mid script world.plain world.account pid (answer world.plain) said)
        → told ≡ turned.Done said
        → ((world : World) → StandsFor script mid world → StandsFor script new (answered_in script world pid said))
        → ((frames : Frames) → frames_after frames pid call said ≡ frames)
        → ((plain : Plain) → LeavesLocks plain (answer plain)) → Performs script old pid call answer told new }
{}
