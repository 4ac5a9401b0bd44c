//! What a line of a script says.

use kabi_types::{Chooser, FaultKind, Name27, Operand, Policy, Statement, Test, Text};

/// A word of a line.
#[derive(Drop)]
pub enum Word {
    /// As it stands there.
    Bare(Text),
    /// A text that stood in quotes, with its escapes read.
    Quoted(Text),
}

/// A statement as its line says it: a place is named by its label.
#[derive(Drop)]
pub enum Spoken {
    /// A statement without a place: `set`, `add`, or a call.
    Whole(Statement),
    If {
        left: Operand,
        test: Test,
        right: Operand,
        label: Name27,
    },
    Jump(Name27),
    Label(Name27),
    Loop(u8, Name27),
}

/// A line of a program that says something, or is at fault.
#[derive(Drop)]
pub struct Stated {
    /// Its number in the text, from 1.
    pub line: u32,
    pub said: Result<Spoken, FaultKind>,
}

/// What a line of a program says.
#[derive(Drop)]
pub enum InProgram {
    Silent,
    Says(Spoken),
    /// The program ends.
    Ends,
}

/// A setting of a script.
#[derive(Drop)]
pub enum Setting {
    Heap(u64),
    Disk(u32),
    Steps(u32),
    Victims(Policy),
    Choosing(Chooser),
}

/// What a line outside programs says.
#[derive(Drop)]
pub enum AtTop {
    Silent,
    Sets(Setting),
    /// A program of this name begins.
    Begins(Name27),
}

/// The shape of a call's operands.
#[derive(Clone, Copy, PartialEq)]
pub enum Shape {
    /// So many values.
    Values(u32),
    OnePath,
    TwoPaths,
    PathValue,
    ValuePath,
    /// A value, and the bytes of a `store`.
    ValueBytes,
    /// A value, and up to eight pairs of values.
    Pairs,
}
