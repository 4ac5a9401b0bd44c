//! Frames that several pages name. Each law is the contract of a function that does nothing.

ghost use Rattle.std.specs.Prelude.{List};
ghost use Rattle.kabi_types.specs.declared.entries.Entry.{Entry};
ghost use Rattle.kabi_types.specs.declared.scripts.Script.{Script};
ghost use Rattle.posix_defs.specs.History.{IsRun, MayFollow, Past};
ghost use Rattle.machine_laws.specs.Framed.{AreFramed, StayUnwritten};

/// In every history the frames of the account are frames: a page has a place where it is mapped, a process names a frame by one
/// page alone, and two processes that name one have the same bytes there.
pub fn pages_of_a_frame_have_its_bytes()
    ensures { (script : Script) (history : List Entry) (past : Past) → IsRun script history past → AreFramed past.plain past.account.frames }
{}

/// Whatever comes next in a history, a frame that two processes named is written by neither, nor by anybody else: each page that
/// names it then has the bytes that theirs had. Who puts bytes in such a page names another frame from then on.
pub fn a_shared_frame_is_written_by_nobody()
    ensures { (script : Script) (history : List Entry) (past : Past) (added : Entry) (next : Past) → IsRun script history past
        → MayFollow script past added next → StayUnwritten past.plain past.account.frames next.plain next.account.frames }
{}
