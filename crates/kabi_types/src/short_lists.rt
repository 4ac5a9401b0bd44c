ghost use Rattle.std.specs.Prelude.{◌≡◌, ◌≤◌, ◌↔◌, length, IsSome, IfSome};

use arrayvec::ArrayVec;
use std::marker::Model;

/// A path as a call names it: at most 255 bytes. Those of a script have no zero byte, which `of` doesn't look for.
#[derive(Drop)]
pub struct Path {
    bytes: ArrayVec<u8, 255>,
}

impl Model for Path {
    ghost use Rattle.std.specs.Prelude.{ℕ, List};

    ghost Value = { List ℕ };

    ghost view = { λ list. list.bytes.items };

    ghost inverse = { λ items. record { bytes = record { items = items } } };
}

impl Path {
    /// The bytes of the slice, in order; None where it has more than 255.
    pub fn of(items: &[u8]) -> Option<Self>
        ensures fits { IsSome result ↔ (length items.now ≤ 255) }
        ensures same { IfSome result (λ list. list ≡ items.now) }
    {
        let bytes = ArrayVec::try_from(items).ok()?;
        Some(Path { bytes })
    }

    /// The bytes, in order.
    pub fn items(&self) -> &[u8]
        ensures same { result.now ≡ self.now }
        ensures fits { length self.now ≤ 255 }
    {
        self.bytes.as_slice()
    }

    /// An equal list.
    pub fn copy(&self) -> Self
        ensures { result ≡ self.now }
    {
        let mut bytes = ArrayVec::new();
        for item in self.bytes.as_slice() {
            bytes.push(*item);
        }
        Path { bytes }
    }
}

/// At most 64 bytes that `store` puts into memory or `load` takes out.
#[derive(Drop)]
pub struct Bytes64 {
    bytes: ArrayVec<u8, 64>,
}

impl Model for Bytes64 {
    ghost use Rattle.std.specs.Prelude.{ℕ, List};

    ghost Value = { List ℕ };

    ghost view = { λ list. list.bytes.items };

    ghost inverse = { λ items. record { bytes = record { items = items } } };
}

impl Bytes64 {
    /// The bytes of the slice, in order; None where it has more than 64.
    pub fn of(items: &[u8]) -> Option<Self>
        ensures fits { IsSome result ↔ (length items.now ≤ 64) }
        ensures same { IfSome result (λ list. list ≡ items.now) }
    {
        let bytes = ArrayVec::try_from(items).ok()?;
        Some(Bytes64 { bytes })
    }

    /// The bytes, in order.
    pub fn items(&self) -> &[u8]
        ensures same { result.now ≡ self.now }
        ensures fits { length self.now ≤ 64 }
    {
        self.bytes.as_slice()
    }

    /// An equal list.
    pub fn copy(&self) -> Self
        ensures { result ≡ self.now }
    {
        let mut bytes = ArrayVec::new();
        for item in self.bytes.as_slice() {
            bytes.push(*item);
        }
        Bytes64 { bytes }
    }
}

/// What `poll` answers for each of its entries, in their order: at most 8 sets of events.
#[derive(Drop)]
pub struct Revents {
    events: ArrayVec<u8, 8>,
}

impl Model for Revents {
    ghost use Rattle.std.specs.Prelude.{ℕ, List};

    ghost Value = { List ℕ };

    ghost view = { λ list. list.events.items };

    ghost inverse = { λ items. record { events = record { items = items } } };
}

impl Revents {
    /// The sets of events of the slice, in order; None where it has more than 8.
    pub fn of(items: &[u8]) -> Option<Self>
        ensures fits { IsSome result ↔ (length items.now ≤ 8) }
        ensures same { IfSome result (λ list. list ≡ items.now) }
    {
        let events = ArrayVec::try_from(items).ok()?;
        Some(Revents { events })
    }

    /// The sets of events, in order.
    pub fn items(&self) -> &[u8]
        ensures same { result.now ≡ self.now }
        ensures fits { length self.now ≤ 8 }
    {
        self.events.as_slice()
    }

    /// An equal list.
    pub fn copy(&self) -> Self
        ensures { result ≡ self.now }
    {
        let mut events = ArrayVec::new();
        for item in self.events.as_slice() {
            events.push(*item);
        }
        Revents { events }
    }
}

/// A name of a directory entry, a program or a label: at most 27 bytes.
#[derive(Drop, PartialEq, Eq, Hash)]
pub struct Name27 {
    bytes: ArrayVec<u8, 27>,
}

impl Model for Name27 {
    ghost use Rattle.std.specs.Prelude.{ℕ, List};

    ghost Value = { List ℕ };

    ghost view = { λ list. list.bytes.items };

    ghost inverse = { λ items. record { bytes = record { items = items } } };
}

impl Name27 {
    /// The bytes of the slice, in order; None where it has more than 27.
    pub fn of(items: &[u8]) -> Option<Self>
        ensures fits { IsSome result ↔ (length items.now ≤ 27) }
        ensures same { IfSome result (λ list. list ≡ items.now) }
    {
        let bytes = ArrayVec::try_from(items).ok()?;
        Some(Name27 { bytes })
    }

    /// The bytes, in order.
    pub fn items(&self) -> &[u8]
        ensures same { result.now ≡ self.now }
        ensures fits { length self.now ≤ 27 }
    {
        self.bytes.as_slice()
    }

    /// An equal list.
    pub fn copy(&self) -> Self
        ensures { result ≡ self.now }
    {
        let mut bytes = ArrayVec::new();
        for item in self.bytes.as_slice() {
            bytes.push(*item);
        }
        Name27 { bytes }
    }
}

/// One descriptor that `poll` asks about, and the events that it asks for.
#[derive(Clone, Copy, Default)]
pub struct PollEntry {
    pub fd: i64,
    pub events: i64,
}

/// The entries of one `poll`: at most 8.
#[derive(Drop)]
pub struct PollList {
    entries: ArrayVec<PollEntry, 8>,
}

impl Model for PollList {
    ghost use Rattle.std.specs.Prelude.{ℕ, List};
    ghost use Rattle.kabi_types.specs.declared.short_lists.PollEntry.{PollEntry};

    ghost Value = { List PollEntry };

    ghost view = { λ list. list.entries.items };

    ghost inverse = { λ items. record { entries = record { items = items } } };
}

impl PollList {
    /// The entries of the slice, in order; None where it has more than 8.
    pub fn of(items: &[PollEntry]) -> Option<Self>
        ensures fits { IsSome result ↔ (length items.now ≤ 8) }
        ensures same { IfSome result (λ list. list ≡ items.now) }
    {
        let entries = ArrayVec::try_from(items).ok()?;
        Some(PollList { entries })
    }

    /// The entries, in order.
    pub fn items(&self) -> &[PollEntry]
        ensures same { result.now ≡ self.now }
        ensures fits { length self.now ≤ 8 }
    {
        self.entries.as_slice()
    }

    /// An equal list.
    pub fn copy(&self) -> Self
        ensures { result ≡ self.now }
    {
        let mut entries = ArrayVec::new();
        for item in self.entries.as_slice() {
            entries.push(*item);
        }
        PollList { entries }
    }
}
