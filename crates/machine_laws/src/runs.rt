//! What a process has by itself, in histories. Each law is the contract of a function that does nothing.

ghost use Rattle.std.specs.Prelude.{◌≡◌, ◌≤◌, ℕ, true, false, List, length};
ghost use Rattle.kabi_types.specs.declared.entries.Entry.{Entry};
ghost use Rattle.kabi_types.specs.declared.scripts.Script.{Script};
ghost use Rattle.kern_laws.specs.Sleeping.{is_of};
ghost use Rattle.posix_defs.specs.History.{IsRun, MayFollow, Past};
ghost use Rattle.posix_defs.specs.Process.{is_alive};
ghost use Rattle.machine_laws.specs.Followed.{AreOfOthers, Follow};
ghost use Rattle.machine_laws.specs.Own.{KeepsOwn};

/// In a history an entry that isn't of a process leaves it what it has, if it lives before it and after it.
pub fn an_entry_of_another_leaves_alone()
    ensures { (script : Script) (history : List Entry) (past : Past) (added : Entry) (next : Past) → IsRun script history past
        → MayFollow script past added next → (who : ℕ) → is_of who added ≡ false
        → is_alive past.plain.table who ≡ true → is_alive next.plain.table who ≡ true → KeepsOwn who past.plain next.plain }
{}

/// Who was made and isn't alive is never alive again.
pub fn who_has_ended_stays_so()
    ensures { (script : Script) (history : List Entry) (past : Past) (added : Entry) (next : Past) → IsRun script history past
        → MayFollow script past added next → (who : ℕ) → who ≤ length past.plain.table → is_alive past.plain.table who ≡ false
        → is_alive next.plain.table who ≡ false }
{}

/// However many entries of others come one after another: if a process lives before them and behind them, it has in memory, as
/// its working directory, in its registers and its place in its program, and under its numbers what it had before.
pub fn entries_of_others_leave_its_own()
    ensures { (script : Script) (history : List Entry) (past : Past) (entries : List Entry) (next : Past) → IsRun script history past
        → Follow script past entries next → (who : ℕ) → AreOfOthers who entries
        → is_alive past.plain.table who ≡ true → is_alive next.plain.table who ≡ true → KeepsOwn who past.plain next.plain }
{}
