ghost use Rattle.std.specs.Prelude.{◌≡◌};

use crate::{Entry, Operand, Program, Statement};
use std::marker::Model;

/// The programs of a script, as it gives them.
#[derive(Drop)]
pub struct Programs {
    programs: Vec<Program>,
}

impl Model for Programs {
    ghost use Rattle.std.specs.Prelude.{ℕ, List};
    ghost use Rattle.kabi_types.specs.declared.scripts.Program.{Program};

    ghost Value = { List Program };

    ghost view = { λ list. list.programs.items };
}

impl Programs {
    /// These programs, in order.
    pub fn from_vec(items: Vec<Program>) -> Self
        ensures { result ≡ items.items }
    {
        Programs { programs: items }
    }

    /// The programs, in order.
    pub fn items(&self) -> &[Program]
        ensures { result.now ≡ self.now }
    {
        self.programs.as_slice()
    }
}

/// A program's statements. The place of a statement counts from 0.
#[derive(Drop)]
pub struct Statements {
    statements: Vec<Statement>,
}

impl Model for Statements {
    ghost use Rattle.std.specs.Prelude.{ℕ, List};
    ghost use Rattle.kabi_types.specs.declared.scripts.Statement.{Statement};

    ghost Value = { List Statement };

    ghost view = { λ list. list.statements.items };
}

impl Statements {
    /// These statements, in order.
    pub fn from_vec(items: Vec<Statement>) -> Self
        ensures { result ≡ items.items }
    {
        Statements { statements: items }
    }

    /// The statements, in order.
    pub fn items(&self) -> &[Statement]
        ensures { result.now ≡ self.now }
    {
        self.statements.as_slice()
    }
}

/// The numbers of a script's line of choices.
#[derive(Drop)]
pub struct Numbers {
    numbers: Vec<u32>,
}

impl Model for Numbers {
    ghost use Rattle.std.specs.Prelude.{ℕ, List};

    ghost Value = { List ℕ };

    ghost view = { λ list. list.numbers.items };
}

impl Numbers {
    /// These numbers, in order.
    pub fn from_vec(items: Vec<u32>) -> Self
        ensures { result ≡ items.items }
    {
        Numbers { numbers: items }
    }

    /// The numbers, in order.
    pub fn items(&self) -> &[u32]
        ensures { result.now ≡ self.now }
    {
        self.numbers.as_slice()
    }
}

/// The operands of a call that are numbers, in the order of the call's fields.
#[derive(Drop)]
pub struct Operands {
    operands: Vec<Operand>,
}

impl Model for Operands {
    ghost use Rattle.std.specs.Prelude.{ℕ, List};
    ghost use Rattle.kabi_types.specs.declared.scripts.Operand.{Operand};

    ghost Value = { List Operand };

    ghost view = { λ list. list.operands.items };
}

impl Operands {
    /// These operands, in order.
    pub fn from_vec(items: Vec<Operand>) -> Self
        ensures { result ≡ items.items }
    {
        Operands { operands: items }
    }

    /// The operands, in order.
    pub fn items(&self) -> &[Operand]
        ensures { result.now ≡ self.now }
    {
        self.operands.as_slice()
    }
}

/// The operands of a call that are texts: its paths, or the bytes of a `store`.
#[derive(Drop)]
pub struct Texts {
    texts: Vec<Text>,
}

impl Model for Texts {
    ghost use Rattle.std.specs.Prelude.{ℕ, List};

    ghost Value = { List (List ℕ) };

    ghost view = { λ list. list.texts.items };
}

impl Texts {
    /// These texts, in order.
    pub fn from_vec(items: Vec<Text>) -> Self
        ensures { result ≡ items.items }
    {
        Texts { texts: items }
    }

    /// The texts, in order.
    pub fn items(&self) -> &[Text]
        ensures { result.now ≡ self.now }
    {
        self.texts.as_slice()
    }
}

/// A text of a script, without its quotes and with its escapes read.
#[derive(Drop)]
pub struct Text {
    bytes: Vec<u8>,
}

impl Model for Text {
    ghost use Rattle.std.specs.Prelude.{ℕ, List};

    ghost Value = { List ℕ };

    ghost view = { λ list. list.bytes.items };
}

impl Text {
    /// These bytes, in order.
    pub fn from_vec(items: Vec<u8>) -> Self
        ensures { result ≡ items.items }
    {
        Text { bytes: items }
    }

    /// The bytes, in order.
    pub fn items(&self) -> &[u8]
        ensures { result.now ≡ self.now }
    {
        self.bytes.as_slice()
    }
}

/// A history: what the calls answered, what was killed and what was evicted, the oldest first.
#[derive(Drop)]
pub struct Entries {
    entries: Vec<Entry>,
}

impl Model for Entries {
    ghost use Rattle.std.specs.Prelude.{ℕ, List};
    ghost use Rattle.kabi_types.specs.declared.entries.Entry.{Entry};

    ghost Value = { List Entry };

    ghost view = { λ list. list.entries.items };
}

impl Entries {
    /// These entries, in order.
    pub fn from_vec(items: Vec<Entry>) -> Self
        ensures { result ≡ items.items }
    {
        Entries { entries: items }
    }

    /// The entries, in order.
    pub fn items(&self) -> &[Entry]
        ensures { result.now ≡ self.now }
    {
        self.entries.as_slice()
    }
}
