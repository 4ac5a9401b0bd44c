//! Turns that wake nobody. Each law is the contract of a function that does nothing.

ghost use Rattle.std.specs.Prelude.{◌≡◌, ◌≢◌, ℕ, ℤ, None, Some, false, true};
ghost use Rattle.kabi_types.specs.declared.calls.Call.{Call};
ghost use Rattle.kabi_types.specs.declared.scripts.Script.{Script};
ghost use Rattle.machine_laws.specs.Reached.{IsReached};
ghost use Rattle.posix_defs.specs.declared.turner.Turned.{Turned};
ghost use Rattle.posix_defs.specs.Plain.{Plain};
ghost use Rattle.posix_defs.specs.Process.{is_alive};
ghost use Rattle.posix_defs.specs.Turn.{TurnsTo};
ghost use Rattle.posix_defs.specs.World.{World};
ghost use Rattle.waking_laws.specs.Waking.{Lasts, StaysAsItWas, StaysItself, gives_number, is_apart, moves_through, no_fifo, no_lock, passes_by, target_at};

/// Behind a turn that did nothing, and, where no lock is held behind it, behind one that failed or whose call changes nothing that others
/// wait for, as an open behind which no FIFO is open, each other process that lived before it lives, and its next call would block exactly
/// where it would have before.
pub fn a_turn_that_passes_by_wakes_nobody()
    ensures { (script : Script) (old new : World) (pid who : ℕ) (call : Call) (told : Turned) → IsReached script old.plain
        → TurnsTo script old pid call told new → passes_by (no_fifo new.plain.files) (no_lock new.plain.files) call told ≡ true → who ≢ pid → is_alive old.plain.table who ≡ true
        → StaysAsItWas script who old.plain new.plain }
{}

/// Behind a turn of another, whatever that came to, a process that is alive still makes the same call next, and has its numbers open on what they
/// were open on.
pub fn a_turn_leaves_others_themselves()
    ensures { (script : Script) (old new : World) (pid who : ℕ) (call : Call) (told : Turned) → IsReached script old.plain
        → TurnsTo script old pid call told new → who ≢ pid → is_alive old.plain.table who ≡ true → is_alive new.plain.table who ≡ true
        → StaysItself script who old.plain new.plain }
{}

/// A turn that moves bytes, doesn't end its process, and leaves no lock held, wakes only those who wait for what its number is open on:
/// whose next call has nothing to do with that would block exactly where it would have before.
pub fn a_turn_that_moves_bytes_wakes_who_waits_there()
    ensures { (script : Script) (old new : World) (pid who : ℕ) (fd : ℤ) (call : Call) (told : Turned) → IsReached script old.plain
        → TurnsTo script old pid call told new → moves_through call ≡ Some fd → Lasts told → no_lock new.plain.files ≡ true → who ≢ pid
        → is_alive old.plain.table who ≡ true → is_apart script old.plain who pid fd ≡ true → StaysAsItWas script who old.plain new.plain }
{}

/// A turn that moves bytes, and doesn't end its process, leaves its own numbers open on what they were open on.
pub fn a_turn_that_moves_bytes_leaves_its_numbers()
    ensures { (script : Script) (old new : World) (pid : ℕ) (fd number : ℤ) (call : Call) (told : Turned) → IsReached script old.plain
        → TurnsTo script old pid call told new → moves_through call ≡ Some number → Lasts told
        → target_at new.plain.files pid fd ≡ target_at old.plain.files pid fd }
{}

/// So does one that wakes nobody and gives its process no number.
pub fn a_turn_that_passes_by_leaves_its_numbers()
    ensures { (script : Script) (old new : World) (pid : ℕ) (fd : ℤ) (call : Call) (told : Turned) → IsReached script old.plain
        → TurnsTo script old pid call told new → passes_by (no_fifo new.plain.files) (no_lock new.plain.files) call told ≡ true → gives_number call ≡ false
        → target_at new.plain.files pid fd ≡ target_at old.plain.files pid fd }
{}

/// Who has ended has nothing open.
pub fn no_number_outlives_its_process()
    ensures { (script : Script) (plain : Plain) (pid : ℕ) (fd : ℤ) → IsReached script plain → is_alive plain.table pid ≡ false
        → target_at plain.files pid fd ≡ None }
{}
