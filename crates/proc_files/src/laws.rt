//! Laws of names of sockets. Each is the contract of a function that does nothing.

ghost use Rattle.std.specs.Prelude.{◌≡◌, ℕ, ℤ, [], List, IsSome, length, ◌+◌};
ghost use Rattle.kheap_slabs.specs.Objects.{InUse};
ghost use Rattle.kheap_slabs.specs.Heap.{Heap};
ghost use Rattle.open_laws.specs.Owned.{HasItsOwners};
ghost use Rattle.open_laws.specs.Placed.{Numbers};
ghost use Rattle.posix_defs.specs.Files.State.{Files, with_sockets};
ghost use Rattle.posix_defs.specs.SocketLinks.{AreLinked};
ghost use Rattle.posix_defs.specs.Sockets.{sock_at, socket_at, with_new, with_pair, after_accept, after_listen, after_read, after_shut, after_write};
ghost use Rattle.proc_table.specs.Table.{TableView};
ghost use Rattle.proc_numbers.specs.Having.{HaveOpen};
ghost use Rattle.proc_numbers.specs.PipeOpening.{KeepsNumbers};
ghost use Rattle.proc_files.specs.Names.{name_of};
ghost use Rattle.proc_files.specs.Holders.{HaveNames};

/// No key of the heap gets another name where no socket of the machine does: a call that leads, whichever places keys have that
/// aren't in use, from what heap and table stood for to what they stand for then.
pub fn names_stay_with_the_machines()
    ensures { (numbers : Numbers) (old : Heap) (new : Heap) (kept : TableView) (files : Files) (now : Files)
        → HasItsOwners old [] → HaveOpen numbers old kept files
        → ((n : Numbers) → KeepsNumbers old numbers n → HaveOpen n old kept files → HaveOpen n new kept now)
        → ((place : ℕ) → (socket_at now.sockets place).node ≡ (socket_at files.sockets place).node)
        → (key : ℕ) → name_of new.socks key ≡ name_of old.socks key }
{}

/// The same of a call that makes sockets: whatever was in use is in use still, and has the place that it had.
pub fn made_sockets_have_no_names()
    ensures { (numbers : Numbers) (after : Numbers) (old : Heap) (new : Heap) (kept : TableView) (files : Files) (now : Files)
        → HaveOpen numbers old kept files → HaveOpen after new kept now → KeepsNumbers old numbers after
        → ((key : ℕ) → InUse old.socks key → InUse new.socks key)
        → ((place : ℕ) → (socket_at now.sockets place).node ≡ (socket_at files.sockets place).node)
        → (key : ℕ) → name_of new.socks key ≡ name_of old.socks key }
{}

/// The calls that neither bind, connect nor close leave each bound socket bound to a socket's name, and who waits without one.
pub fn other_calls_leave_names()
    ensures made { (files : Files) → HaveNames files
        → HaveNames (with_sockets files (with_new files.sockets (length files.sockets))) }
    ensures pair { (files : Files) → HaveNames files
        → HaveNames (with_sockets files (with_pair files.sockets (length files.sockets) (length files.sockets + 1))) }
    ensures listening { (files : Files) (place : ℕ) → IsSome (sock_at files.sockets place) → HaveNames files
        → HaveNames (with_sockets files (after_listen files.sockets place)) }
    ensures accepted { (files : Files) (place : ℕ) → IsSome (sock_at files.sockets place) → HaveNames files
        → HaveNames (with_sockets files (after_accept files.sockets place)) }
    ensures read { (files : Files) (place count : ℕ) → IsSome (sock_at files.sockets place) → HaveNames files
        → HaveNames (with_sockets files (after_read files.sockets place count)) }
    ensures written { (files : Files) (place : ℕ) (bytes : List ℕ) (count : ℕ) → AreLinked files.sockets → HaveNames files
        → HaveNames (with_sockets files (after_write files.sockets place bytes count)) }
    ensures shut { (files : Files) (place : ℕ) (how : ℤ) → IsSome (sock_at files.sockets place) → HaveNames files
        → HaveNames (with_sockets files (after_shut files.sockets place how)) }
{}
