//! The law of turns of machines that are reached. It is the contract of a function that does nothing.

ghost use Rattle.std.specs.Prelude.{ℕ};
ghost use Rattle.kabi_types.specs.declared.entries.Cached.{Cached};
ghost use Rattle.kabi_types.specs.declared.scripts.Script.{Script};
ghost use Rattle.posix_defs.specs.Plain.{call_of};
ghost use Rattle.posix_defs.specs.Relief.{Evicts, Kills, refused_in};
ghost use Rattle.posix_defs.specs.Turn.{TurnsTo};
ghost use Rattle.posix_defs.specs.World.{World};
ghost use Rattle.posix_defs.specs.declared.turner.Turned.{Turned};
ghost use Rattle.machine_laws.specs.Reached.{IsReached};

/// Where a world's machine is reached, so is the one after a turn of a process's own call, whatever is told of it, the one in
/// which that call was refused, the one from whose caches something went, and the one in which a process was killed.
pub fn turns_lead_to_machines_that_are_reached()
    ensures turns { (script : Script) (old new : World) (pid : ℕ) (told : Turned) → IsReached script old.plain
        → TurnsTo script old pid (call_of script old.plain pid) told new → IsReached script new.plain }
    ensures refuses { (script : Script) (old : World) (pid : ℕ) → IsReached script old.plain → IsReached script (refused_in script old pid).plain }
    ensures evicts { (script : Script) (old new : World) (what : Cached) → IsReached script old.plain → Evicts old what new
        → IsReached script new.plain }
    ensures kills { (script : Script) (old new : World) (pid : ℕ) → IsReached script old.plain → Kills old pid new → IsReached script new.plain }
{}
