//! The laws of record locks. Each is the contract of a function that does nothing.

ghost use Rattle.std.specs.Prelude.{◌≡◌, ◌≢◌, ◌↔◌, ℕ, ℤ, Bool, List, [], false, true, if◌then◌else◌};
ghost use Rattle.kabi_types.specs.declared.calls.Call.{Call};
ghost use Rattle.kabi_types.specs.declared.calls.Call.TheVariants.{Setlk, Setlkw};
ghost use Rattle.kabi_types.specs.declared.errnos.Errno.TheVariants.{EDEADLK, ENOMEM};
ghost use Rattle.kabi_types.specs.declared.replies.Reply.TheVariants.{Fail};
ghost use Rattle.kabi_types.specs.declared.scripts.Script.{Script};
ghost use Rattle.kabi_types.specs.Ranges.{IsCanonical, clashes, kind_at};
ghost use Rattle.posix_defs.specs.Answer.{Blocked, Done, failed};
ghost use Rattle.posix_defs.specs.Calls.OnLocks.{circles, leads, waits_for};
ghost use Rattle.posix_defs.specs.Ending.{die};
ghost use Rattle.posix_defs.specs.Files.Whole.{has_open};
ghost use Rattle.posix_defs.specs.Locks.{ranges_of};
ghost use Rattle.posix_defs.specs.Machine.{blocks, machine, would_block};
ghost use Rattle.posix_defs.specs.Plain.{Plain, answered, boot_plain, call_of};
ghost use Rattle.posix_defs.specs.Process.{is_alive};
ghost use Rattle.machine_laws.specs.Chains.{Chain, among, anyone};
ghost use Rattle.machine_laws.specs.FileSteps.{LeadsTo};
ghost use Rattle.machine_laws.specs.Reached.{IsReached};
ghost use Rattle.machine_laws.specs.WithoutLocks.{minds_no_lock};

/// In every machine that is reached there is no place of a file that two processes hold so that both can't hold it, whatever they did since;
/// and of each process and file there is one list alone that says what is held.
pub fn no_two_processes_hold_a_place_that_they_cant_share()
    ensures apart { (script : Script) (plain : Plain) → IsReached script plain → (pid other number place : ℕ) → pid ≢ other
        → clashes (kind_at (ranges_of plain.files.locks pid number) place) (kind_at (ranges_of plain.files.locks other number) place) ≡ false }
    ensures canonical { (script : Script) (plain : Plain) → IsReached script plain → (pid number : ℕ) → IsCanonical (ranges_of plain.files.locks pid number) }
{}

/// Who holds places of a file has it open, so who has ended holds none: with each descriptor of a file that a process closes, in whatever
/// way, its locks of that file go.
pub fn who_has_ended_holds_no_lock()
    ensures opened { (script : Script) (plain : Plain) → IsReached script plain → (pid number : ℕ) → ranges_of plain.files.locks pid number ≢ []
        → has_open plain.files pid number ≡ true }
    ensures ended { (script : Script) (plain : Plain) → IsReached script plain → (pid number : ℕ) → is_alive plain.table pid ≡ false
        → ranges_of plain.files.locks pid number ≡ [] }
{}

/// What is computed of waits is true exactly where a chain of them is there: between two processes through others that are given, and,
/// in every machine that is reached, from a process back to itself, through whomever.
pub fn a_circle_is_a_chain()
    ensures chain { (waits : ℕ → ℕ → Bool) (between : List ℕ) (pid other : ℕ)
        → ((leads waits between pid other ≡ true) ↔ Chain waits (among between) pid other) }
    ensures circle { (script : Script) (plain : Plain) → IsReached script plain → (pid : ℕ)
        → ((circles script plain pid ≡ true) ↔ Chain (waits_for script plain) anyone pid pid) }
{}

/// Who stands at a `setlkw` and waits for another is answered EDEADLK where it would wait for itself, and else sleeps; and who is told
/// EDEADLK would wait for itself. No call of who would wait for itself sleeps; so who sleeps in a `setlkw` stands in no chain that is
/// closed, whoever else sleeps.
pub fn a_circle_is_refused_and_never_slept_in()
    ensures answered { (script : Script) (plain : Plain) (pid other : ℕ) → waits_for script plain pid other ≡ true
        → machine script plain pid (call_of script plain pid) ≡ (if circles script plain pid then failed script plain pid EDEADLK else Blocked) }
    ensures told { (script : Script) (plain next : Plain) (pid : ℕ) (fd kind start size : ℤ)
        → machine script plain pid (Setlkw fd kind start size) ≡ Done (Fail EDEADLK) next → circles script plain pid ≡ true }
    ensures refused { (script : Script) (plain : Plain) (pid : ℕ) (fd kind start size : ℤ) → circles script plain pid ≡ true
        → blocks (machine script plain pid (Setlkw fd kind start size)) ≡ false }
    ensures slept { (script : Script) (plain : Plain) (pid : ℕ) (fd kind start size : ℤ) → IsReached script plain
        → call_of script plain pid ≡ Setlkw fd kind start size → would_block script plain pid ≡ true
        → Chain (waits_for script plain) anyone pid pid → ⊥ }
{}

/// Where nobody holds a lock and no call on locks is made all is as if there were none: nobody holds one afterwards either. Where
/// nobody holds one, `setlkw` is `setlk`, and waits for nobody.
pub fn without_locks_all_is_as_before()
    ensures boot { (script : Script) → (boot_plain script).files.locks ≡ [] }
    ensures stays { (script : Script) (plain : Plain) (pid : ℕ) (call : Call) → plain.files.locks ≡ [] → minds_no_lock call ≡ true
        → LeadsTo (λ next. next.files.locks ≡ []) (machine script plain pid call) }
    ensures refused { (script : Script) (plain : Plain) (pid : ℕ) → plain.files.locks ≡ [] → (answered script plain pid (Fail ENOMEM)).files.locks ≡ [] }
    ensures killed { (plain : Plain) (pid status : ℕ) → plain.files.locks ≡ [] → (die plain pid status).files.locks ≡ [] }
    ensures granted { (script : Script) (plain : Plain) (pid : ℕ) (fd kind start size : ℤ) → plain.files.locks ≡ []
        → machine script plain pid (Setlkw fd kind start size) ≡ machine script plain pid (Setlk fd kind start size) }
{}
