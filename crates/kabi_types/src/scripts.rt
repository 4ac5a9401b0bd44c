use crate::{CallKind, Name27, Numbers, Operands, Programs, Statements, Texts};
use thiserror::Error;

/// How the score of a process is computed where one has to be killed.
#[derive(Clone, Copy)]
pub enum Policy {
    /// The process that holds the most heap goes.
    Heaviest,
    /// The youngest process goes.
    Youngest,
}

/// Who chooses among the enabled events.
#[derive(Drop)]
pub enum Chooser {
    /// The default event is always taken.
    Plain,
    /// These numbers choose first, one an event.
    Choices(Numbers),
    /// The generator with this seed chooses.
    Seed(u32),
}

/// A value of a statement: a register's, or a number.
#[derive(Clone, Copy)]
pub enum Operand {
    /// One of the registers 0 to 15.
    Reg(u8),
    Number(i64),
}

/// How an `if` compares its two values.
#[derive(Clone, Copy)]
pub enum Test {
    Eq,
    Ne,
    Lt,
    Le,
}

/// A statement of a program. Registers are numbered 0 to 15 and a program's statements from 0; a place is such a number.
#[derive(Drop)]
pub enum Statement {
    Set(u8, Operand),
    Add(u8, Operand),
    /// Jumps to a later place where the test holds.
    If {
        left: Operand,
        test: Test,
        right: Operand,
        place: u32,
    },
    /// Jumps to a later place.
    Jump(u32),
    Label(Name27),
    /// Where the register is above 0, it falls by one and the program goes on at an earlier place.
    Loop(u8, u32),
    /// A call, and the registers that get its values.
    Invoke {
        kind: CallKind,
        operands: Operands,
        texts: Texts,
        first: Option<u8>,
        second: Option<u8>,
    },
}

/// A program of a script.
#[derive(Drop)]
pub struct Program {
    pub name: Name27,
    pub body: Statements,
}

/// A whole script: the sizes of heap and disk, the number of steps, how events and victims are chosen, and the programs.
#[derive(Drop)]
pub struct Script {
    /// In bytes.
    pub heap: u64,
    /// In blocks.
    pub disk: u32,
    /// How many events a run may take.
    pub steps: u32,
    pub policy: Policy,
    pub chooser: Chooser,
    pub programs: Programs,
}

/// Where a process stands in its program.
#[derive(Clone, Copy)]
pub struct Control {
    /// The place of the program in the script.
    pub program: u32,
    /// The place of the next statement.
    pub place: u32,
    pub regs: [i64; 16],
    /// How many bytes the write that is under way has moved.
    pub done: u32,
}

/// What is wrong with a line of a script, in the order in which one is told before another.
#[derive(Clone, Copy, Debug, Error)]
pub enum FaultKind {
    #[error("not utf-8")]
    NotUtf8,
    #[error("unknown word")]
    UnknownWord,
    #[error("bad number")]
    BadNumber,
    #[error("out of range")]
    OutOfRange,
    #[error("no such label")]
    NoSuchLabel,
    #[error("wrong way")]
    WrongWay,
    #[error("twice defined")]
    TwiceDefined,
    #[error("unended")]
    Unended,
    #[error("no init")]
    NoInit,
    #[error("too long")]
    TooLong,
}

/// Why a text is no script: the line, from 1, or 0 where no line is at fault, and what is wrong there.
#[derive(Clone, Copy, Debug, Error)]
#[error("line {line}: {what}")]
pub struct ScriptFault {
    pub line: u32,
    pub what: FaultKind,
}
