//! A law of stores. It is the contract of a function that does nothing.

ghost use Rattle.std.specs.Prelude.{◌⊎◌, ℕ};
ghost use Rattle.kabi_types.specs.declared.scripts.Script.{Script};
ghost use Rattle.kheap_slabs.specs.Objects.{InUse};
ghost use Rattle.queue_calls.specs.Holding.{IsOpenIn, WaitsIn};
ghost use Rattle.store_objects.specs.Objects.{AreKept};
ghost use Rattle.store_objects.specs.declared.objects.Objects.{Objects};

/// A socket is in the heap only while some process has a number open on it, or while it waits for a socket that is there: it goes
/// with the last number or with the socket that it waits for, and with it the bytes that it was to read.
pub fn a_socket_is_there_while_it_is_open_or_waits()
    ensures { (script : Script) (objects : Objects) (socket : ℕ) → AreKept script objects → InUse objects.heap.socks socket
        → IsOpenIn objects.heap socket ⊎ WaitsIn objects.heap socket }
{}
