//! The call that a statement makes of its operands. A call has room for two paths. What the arms of a `match` come to is put together in
//! room of its own and copied from there, so an arm that makes a call returns it.

ghost use Rattle.std.specs.Prelude.{◌≡◌, ℕ, ℤ, List, ◌≤◌, drop, length, map, IfSome, option_copied};
ghost use Rattle.std.specs.List.{AllByRecursion};
ghost use Rattle.kabi_types.specs.declared.calls.CallKind.TheVariants as kinds;
ghost use Rattle.kabi_types.specs.declared.scripts.Control.{Control as ControlOf};
ghost use Rattle.posix_defs.specs.Control.{call_at, value_of};
ghost use Rattle.posix_defs.specs.Made as spec;
ghost use Rattle.posix_defs.specs.ScriptLines.{shape_of};
ghost use Rattle.prog_ctl.specs.Runnable.{IsMadeOnPath, IsOperand, IsRunnableAt, MovesBytes, TakesDescriptor, TakesFiles, TakesLock, TakesMore, TakesSocket, most_text};
ghost use Rattle.prog_ctl.specs.Waits.{other_side_if, wait_of};

use crate::Awaited;
use crate::statements::value_of;
use arrayvec::ArrayVec;
use kabi_types::{
    Bytes64, Call, CallKind, Control, Operand, Path, PollEntry, PollList, Statement, Text,
};

/// What the operand at a place is now; 0 where there is none.
pub(crate) fn operand_at(control: &Control, operands: &[Operand], at: usize) -> i64
    requires { AllByRecursion IsOperand operands.now }
    ensures { result ≡ spec.number_at (map (value_of control.now) operands.now) at }
{
    match operands.get(at) {
        Some(operand) => value_of(control, *operand),
        None => 0,
    }
}

/// The bytes of the text at a place; none where there is none.
pub(crate) fn text_at(texts: &[Text], at: usize) -> &[u8]
    ensures value { result.now ≡ spec.text_at texts.now at }
    ensures short { (most : ℕ) → AllByRecursion (λ text. length text ≤ most) texts.now → length result.now ≤ most }
{
    match texts.get(at) {
        Some(text) => text.items(),
        None => &[],
    }
}

/// The path at a place; an empty one where there is none.
fn path_at(texts: &[Text], at: usize) -> Path
    requires { AllByRecursion (λ text. length text ≤ 255) texts.now }
    ensures { result ≡ spec.text_at texts.now at }
{
    Path::of(text_at(texts, at)).unwrap()
}

/// The bytes of a `store` at a place; none where there are none.
fn bytes_at(texts: &[Text], at: usize) -> Bytes64
    requires { AllByRecursion (λ text. length text ≤ 64) texts.now }
    ensures { result ≡ spec.text_at texts.now at }
{
    Bytes64::of(text_at(texts, at)).unwrap()
}

/// The entries of a `poll`: pairs of a descriptor and its events, behind the timeout.
fn entries_of(numbers: &[i64]) -> PollList
    requires { length numbers.now ≤ 17 }
    ensures { result ≡ spec.pairs_of (drop 1 numbers.now) }
{
    let mut entries: ArrayVec<PollEntry, 8> = ArrayVec::new();
    let mut rest: &[i64] = match numbers.split_first() {
        Some((_, pairs)) => pairs,
        None => &[],
    };
    while let Some((fd, behind)) = rest.split_first() {
        let Some((events, next)) = behind.split_first() else {
            break;
        };
        entries.push(PollEntry {
            fd: *fd,
            events: *events,
        });
        rest = next;
    }
    PollList::of(entries.as_slice()).unwrap()
}

/// What the operands of a call are now, at most 17 numbers.
fn numbers_of(control: &Control, operands: &[Operand]) -> ArrayVec<i64, 17>
    requires count { length operands.now ≤ 17 }
    requires each { AllByRecursion IsOperand operands.now }
    ensures { result.items ≡ map (value_of control.now) operands.now }
{
    let mut numbers = ArrayVec::new();
    let mut rest = operands;
    while let Some((operand, next)) = rest.split_first() {
        numbers.push(value_of(control, *operand));
        rest = next;
    }
    numbers
}

/// A `mkfifo` of a path. It stands by itself, since the seventh case of the calls on one path made each of them dearer.
#[inline(never)]
fn made_mkfifo(texts: &[Text]) -> Call
    requires texts { AllByRecursion (λ text. length text ≤ most_text (shape_of kinds.Mkfifo)) texts.now }
    ensures { (numbers : List ℤ) (done : ℕ) → result ≡ spec.made kinds.Mkfifo numbers texts.now done }
{
    Call::Mkfifo {
        path: path_at(texts, 0),
    }
}

/// The call of a kind that takes one path and nothing else, but for `mkfifo`. It stands by itself, as `made_with_texts` does.
#[inline(never)]
fn made_on_path(kind: CallKind, texts: &[Text]) -> Call
    requires texts { AllByRecursion (λ text. length text ≤ most_text (shape_of kind)) texts.now }
    ensures { (numbers : List ℤ) (done : ℕ) → IsMadeOnPath kind → result ≡ spec.made kind numbers texts.now done }
{
    match kind {
        CallKind::Exec => return Call::Exec {
            path: path_at(texts, 0),
        },
        CallKind::Stat => return Call::Stat {
            path: path_at(texts, 0),
        },
        CallKind::Chdir => return Call::Chdir {
            path: path_at(texts, 0),
        },
        CallKind::Mkdir => return Call::Mkdir {
            path: path_at(texts, 0),
        },
        CallKind::Rmdir => return Call::Rmdir {
            path: path_at(texts, 0),
        },
        CallKind::Unlink => return Call::Unlink {
            path: path_at(texts, 0),
        },
        _ => Call::SchedYield,
    }
}

/// The call of a kind that takes bytes, two paths, a path and flags, or a list, with these operands and texts in the order of
/// its fields. It stands by itself, since a function pays for the room of all its locals whenever it is entered.
#[inline(never)]
fn made_with_texts(control: &Control, kind: CallKind, operands: &[Operand], texts: &[Text]) -> Call
    requires count { length operands.now ≤ 17 }
    requires each { AllByRecursion IsOperand operands.now }
    requires texts { AllByRecursion (λ text. length text ≤ most_text (shape_of kind)) texts.now }
    ensures { (done : ℕ) → TakesMore kind → result ≡ spec.made kind (map (value_of control.now) operands.now) texts.now done }
{
    match kind {
        CallKind::Store => return Call::Store {
            addr: operand_at(control, operands, 0),
            bytes: bytes_at(texts, 0),
        },
        CallKind::OpenFile => return Call::OpenFile {
            path: path_at(texts, 0),
            flags: operand_at(control, operands, 0),
        },
        CallKind::Link => return Call::Link {
            old: path_at(texts, 0),
            new: path_at(texts, 1),
        },
        CallKind::Rename => return Call::Rename {
            old: path_at(texts, 0),
            new: path_at(texts, 1),
        },
        CallKind::Poll => return Call::Poll {
            timeout: operand_at(control, operands, 0),
            entries: entries_of(numbers_of(control, operands).as_slice()),
        },
        _ => Call::SchedYield,
    }
}

/// The call of a kind that moves bytes or entries between a descriptor and memory, behind what is done of it.
#[inline(never)]
fn made_of_bytes(control: &Control, kind: CallKind, operands: &[Operand]) -> Call
    requires { AllByRecursion IsOperand operands.now }
    ensures { (texts : List (List ℕ)) → MovesBytes kind → result ≡ spec.made kind (map (value_of control.now) operands.now) texts control.now.done }
{
    match kind {
        CallKind::Read => return Call::Read {
            fd: operand_at(control, operands, 0),
            addr: operand_at(control, operands, 1),
            n: operand_at(control, operands, 2),
        },
        CallKind::Write => return Call::Write {
            fd: operand_at(control, operands, 0),
            addr: operand_at(control, operands, 1),
            n: operand_at(control, operands, 2),
            done: control.done,
        },
        CallKind::Pread => return Call::Pread {
            fd: operand_at(control, operands, 0),
            addr: operand_at(control, operands, 1),
            n: operand_at(control, operands, 2),
            at: operand_at(control, operands, 3),
        },
        CallKind::Pwrite => return Call::Pwrite {
            fd: operand_at(control, operands, 0),
            addr: operand_at(control, operands, 1),
            n: operand_at(control, operands, 2),
            at: operand_at(control, operands, 3),
        },
        CallKind::Readdir => return Call::Readdir {
            fd: operand_at(control, operands, 0),
            addr: operand_at(control, operands, 1),
            n: operand_at(control, operands, 2),
        },
        _ => Call::SchedYield,
    }
}

/// The call of a kind that asks about a descriptor, copies or closes it, or changes what it stands for.
#[inline(never)]
fn made_on_descriptor(control: &Control, kind: CallKind, operands: &[Operand]) -> Call
    requires { AllByRecursion IsOperand operands.now }
    ensures { (texts : List (List ℕ)) (done : ℕ) → TakesDescriptor kind → result ≡ spec.made kind (map (value_of control.now) operands.now) texts done }
{
    match kind {
        CallKind::Close => return Call::Close {
            fd: operand_at(control, operands, 0),
        },
        CallKind::Dup => return Call::Dup {
            fd: operand_at(control, operands, 0),
        },
        CallKind::Dup2 => return Call::Dup2 {
            fd: operand_at(control, operands, 0),
            to: operand_at(control, operands, 1),
        },
        CallKind::Fcntl => return Call::Fcntl {
            fd: operand_at(control, operands, 0),
            cmd: operand_at(control, operands, 1),
            arg: operand_at(control, operands, 2),
        },
        CallKind::Lseek => return Call::Lseek {
            fd: operand_at(control, operands, 0),
            offset: operand_at(control, operands, 1),
            whence: operand_at(control, operands, 2),
        },
        CallKind::Ftruncate => return Call::Ftruncate {
            fd: operand_at(control, operands, 0),
            length: operand_at(control, operands, 1),
        },
        CallKind::Fstat => return Call::Fstat {
            fd: operand_at(control, operands, 0),
        },
        _ => Call::SchedYield,
    }
}

/// The call of a kind that makes a socket or does something with one.
#[inline(never)]
fn made_on_socket(control: &Control, kind: CallKind, operands: &[Operand], texts: &[Text]) -> Call
    requires each { AllByRecursion IsOperand operands.now }
    requires texts { AllByRecursion (λ text. length text ≤ most_text (shape_of kind)) texts.now }
    ensures { (done : ℕ) → TakesSocket kind → result ≡ spec.made kind (map (value_of control.now) operands.now) texts.now done }
{
    match kind {
        CallKind::Socket => return Call::Socket,
        CallKind::Socketpair => return Call::Socketpair,
        CallKind::Bind => return Call::Bind {
            fd: operand_at(control, operands, 0),
            path: path_at(texts, 0),
        },
        CallKind::Listen => return Call::Listen {
            fd: operand_at(control, operands, 0),
        },
        CallKind::Connect => return Call::Connect {
            fd: operand_at(control, operands, 0),
            path: path_at(texts, 0),
        },
        CallKind::Accept => return Call::Accept {
            fd: operand_at(control, operands, 0),
        },
        CallKind::Shutdown => return Call::Shutdown {
            fd: operand_at(control, operands, 0),
            how: operand_at(control, operands, 1),
        },
        _ => Call::SchedYield,
    }
}

/// The call of a kind on record locks.
#[inline(never)]
fn made_on_lock(control: &Control, kind: CallKind, operands: &[Operand]) -> Call
    requires { AllByRecursion IsOperand operands.now }
    ensures { (texts : List (List ℕ)) (done : ℕ) → TakesLock kind → result ≡ spec.made kind (map (value_of control.now) operands.now) texts done }
{
    match kind {
        CallKind::Setlk => return Call::Setlk {
            fd: operand_at(control, operands, 0),
            kind: operand_at(control, operands, 1),
            start: operand_at(control, operands, 2),
            length: operand_at(control, operands, 3),
        },
        CallKind::Setlkw => return Call::Setlkw {
            fd: operand_at(control, operands, 0),
            kind: operand_at(control, operands, 1),
            start: operand_at(control, operands, 2),
            length: operand_at(control, operands, 3),
        },
        CallKind::Getlk => return Call::Getlk {
            fd: operand_at(control, operands, 0),
            kind: operand_at(control, operands, 1),
            start: operand_at(control, operands, 2),
            length: operand_at(control, operands, 3),
        },
        _ => Call::SchedYield,
    }
}

/// The call of a kind that goes through descriptors or paths, and is neither `exec`, `read` nor `write` nor on memory: each family
/// of them has a function.
#[inline(never)]
fn made_on_files(control: &Control, kind: CallKind, operands: &[Operand], texts: &[Text]) -> Call
    requires count { length operands.now ≤ 17 }
    requires each { AllByRecursion IsOperand operands.now }
    requires texts { AllByRecursion (λ text. length text ≤ most_text (shape_of kind)) texts.now }
    ensures { TakesFiles kind → result ≡ spec.made kind (map (value_of control.now) operands.now) texts.now control.now.done }
{
    match kind {
        CallKind::Close => made_on_descriptor(control, kind, operands),
        CallKind::Dup => made_on_descriptor(control, kind, operands),
        CallKind::Dup2 => made_on_descriptor(control, kind, operands),
        CallKind::Fcntl => made_on_descriptor(control, kind, operands),
        CallKind::Pread => made_of_bytes(control, kind, operands),
        CallKind::Pwrite => made_of_bytes(control, kind, operands),
        CallKind::Lseek => made_on_descriptor(control, kind, operands),
        CallKind::Readdir => made_of_bytes(control, kind, operands),
        CallKind::Ftruncate => made_on_descriptor(control, kind, operands),
        CallKind::Fstat => made_on_descriptor(control, kind, operands),
        CallKind::Pipe => Call::Pipe,
        CallKind::Socket => made_on_socket(control, kind, operands, texts),
        CallKind::Socketpair => made_on_socket(control, kind, operands, texts),
        CallKind::Bind => made_on_socket(control, kind, operands, texts),
        CallKind::Listen => made_on_socket(control, kind, operands, texts),
        CallKind::Connect => made_on_socket(control, kind, operands, texts),
        CallKind::Accept => made_on_socket(control, kind, operands, texts),
        CallKind::Shutdown => made_on_socket(control, kind, operands, texts),
        CallKind::Poll => made_with_texts(control, kind, operands, texts),
        CallKind::Setlk => made_on_lock(control, kind, operands),
        CallKind::Setlkw => made_on_lock(control, kind, operands),
        CallKind::Getlk => made_on_lock(control, kind, operands),
        _ => Call::SchedYield,
    }
}

/// The call of this kind, with these operands and texts in the order of its fields, behind what is done of it. It stands by
/// itself, so that its cases are no part of who hands the call on: a call has room for two paths, and among many cases it
/// would be copied for each function that hands it on. So the calls of processes and memory, `read` and `write`, which are made
/// most, have their cases here.
#[inline(never)]
pub(crate) fn made(control: &Control, kind: CallKind, operands: &[Operand], texts: &[Text]) -> Call
    requires count { length operands.now ≤ 17 }
    requires each { AllByRecursion IsOperand operands.now }
    requires texts { AllByRecursion (λ text. length text ≤ most_text (shape_of kind)) texts.now }
    ensures { result ≡ spec.made kind (map (value_of control.now) operands.now) texts.now control.now.done }
{
    match kind {
        CallKind::Getpid => return Call::Getpid,
        CallKind::Getppid => return Call::Getppid,
        CallKind::SchedYield => return Call::SchedYield,
        CallKind::Fork => return Call::Fork,
        CallKind::Exec => made_on_path(kind, texts),
        CallKind::Exit => return Call::Exit {
            status: operand_at(control, operands, 0),
        },
        CallKind::Waitpid => return Call::Waitpid {
            pid: operand_at(control, operands, 0),
            options: operand_at(control, operands, 1),
        },
        CallKind::Kill => return Call::Kill {
            pid: operand_at(control, operands, 0),
            signal: operand_at(control, operands, 1),
        },
        CallKind::Signal => return Call::Signal {
            signal: operand_at(control, operands, 0),
            disposition: operand_at(control, operands, 1),
        },
        CallKind::Mmap => return Call::Mmap {
            length: operand_at(control, operands, 0),
        },
        CallKind::Munmap => return Call::Munmap {
            addr: operand_at(control, operands, 0),
            length: operand_at(control, operands, 1),
        },
        CallKind::Store => made_with_texts(control, kind, operands, texts),
        CallKind::Load => return Call::Load {
            addr: operand_at(control, operands, 0),
            n: operand_at(control, operands, 1),
        },
        CallKind::Read => made_of_bytes(control, kind, operands),
        CallKind::Write => made_of_bytes(control, kind, operands),
        CallKind::OpenFile => made_with_texts(control, kind, operands, texts),
        CallKind::Stat => made_on_path(kind, texts),
        CallKind::Chdir => made_on_path(kind, texts),
        CallKind::Mkdir => made_on_path(kind, texts),
        CallKind::Rmdir => made_on_path(kind, texts),
        CallKind::Unlink => made_on_path(kind, texts),
        CallKind::Mkfifo => made_mkfifo(texts),
        CallKind::Link => made_with_texts(control, kind, operands, texts),
        CallKind::Rename => made_with_texts(control, kind, operands, texts),
        _ => made_on_files(control, kind, operands, texts),
    }
}

/// What a statement says of the call that it makes: its kind with its operands and texts. At the end of a program that is `exit`
/// without an operand, which is 0 then.
#[derive(Clone, Copy)]
struct Said<'a> {
    kind: CallKind,
    operands: &'a [Operand],
    texts: &'a [Text],
}

fn said_by(statement: Option<&Statement>) -> Said<'_>
    requires { (place : ℕ) × IfSome (option_copied statement) (IsRunnableAt place) }
    ensures count { length result.operands.now ≤ 17 }
    ensures each { AllByRecursion IsOperand result.operands.now }
    ensures texts { AllByRecursion (λ text. length text ≤ most_text (shape_of result.kind)) result.texts.now }
    ensures says { (control : ControlOf) → spec.made result.kind (map (value_of control) result.operands.now) result.texts.now control.done
        ≡ call_at control (option_copied statement.entry) }
{
    match statement {
        None => Said {
            kind: CallKind::Exit,
            operands: &[],
            texts: &[],
        },
        Some(
            Statement::Invoke {
                kind,
                operands,
                texts,
                ..
            },
        ) => Said {
            kind: *kind,
            operands: operands.items(),
            texts: texts.items(),
        },
        Some(_) => Said {
            kind: CallKind::SchedYield,
            operands: &[],
            texts: &[],
        },
    }
}

/// The call that a statement makes; at the end of a program it is `exit 0`.
pub fn call_at(control: &Control, statement: Option<&Statement>) -> Call
    requires { IfSome (option_copied statement) (IsRunnableAt control.now.place) }
    ensures { result ≡ call_at control.now (option_copied statement.entry) }
{
    let said = said_by(statement);
    // the one way to a call, since what two ways give is copied where they meet
    made(control, said.kind, said.operands, said.texts)
}

/// Whether an `open` has right operands, and so may wait for the other side of a FIFO. It stands by itself, since the call is made
/// here, which has room for two paths; and it tells no more, since what another call waits for would be copied once more else.
#[inline(never)]
fn opens_right(control: &Control, operands: &[Operand], texts: &[Text]) -> bool
    requires count { length operands.now ≤ 17 }
    requires each { AllByRecursion IsOperand operands.now }
    requires texts { AllByRecursion (λ text. length text ≤ most_text (shape_of kinds.OpenFile)) texts.now }
    ensures { other_side_if result ≡ wait_of (spec.made kinds.OpenFile (map (value_of control.now) operands.now) texts.now control.now.done) }
{
    let call = made_with_texts(control, CallKind::OpenFile, operands, texts);
    match call.checked() {
        Ok(()) => true,
        Err(_) => false,
    }
}

/// What a call of this kind waits for, with these operands in the order of its fields; None where calls of this kind never
/// block.
fn awaited(
    control: &Control,
    kind: CallKind,
    operands: &[Operand],
    texts: &[Text],
) -> Option<Awaited>
    requires count { length operands.now ≤ 17 }
    requires each { AllByRecursion IsOperand operands.now }
    requires texts { AllByRecursion (λ text. length text ≤ most_text (shape_of kind)) texts.now }
    ensures { result ≡ wait_of (spec.made kind (map (value_of control.now) operands.now) texts.now control.now.done) }
{
    match kind {
        CallKind::Waitpid => Some(Awaited::Child {
            pid: operand_at(control, operands, 0),
            options: operand_at(control, operands, 1),
        }),
        CallKind::Read => Some(Awaited::Bytes {
            fd: operand_at(control, operands, 0),
            addr: operand_at(control, operands, 1),
            n: operand_at(control, operands, 2),
        }),
        CallKind::Write => Some(Awaited::Room {
            fd: operand_at(control, operands, 0),
            addr: operand_at(control, operands, 1),
            n: operand_at(control, operands, 2),
            done: control.done,
        }),
        CallKind::Accept => Some(Awaited::Peer {
            fd: operand_at(control, operands, 0),
        }),
        CallKind::Poll => Some(Awaited::Events {
            timeout: operand_at(control, operands, 0),
            entries: entries_of(numbers_of(control, operands).as_slice()),
        }),
        CallKind::Setlkw => Some(Awaited::Lock {
            fd: operand_at(control, operands, 0),
            kind: operand_at(control, operands, 1),
            start: operand_at(control, operands, 2),
            length: operand_at(control, operands, 3),
        }),
        CallKind::OpenFile => {
            if opens_right(control, operands, texts) {
                Some(Awaited::OtherSide)
            } else {
                None
            }
        }
        _ => None,
    }
}

/// What the call that a statement makes waits for; None where that call never blocks. It tells as much as the call does, and
/// makes none.
pub fn wait_at(control: &Control, statement: Option<&Statement>) -> Option<Awaited>
    requires { IfSome (option_copied statement) (IsRunnableAt control.now.place) }
    ensures { result ≡ wait_of (call_at control.now (option_copied statement.entry)) }
{
    match statement {
        Some(
            Statement::Invoke {
                kind,
                operands,
                texts,
                ..
            },
        ) => awaited(control, *kind, operands.items(), texts.items()),
        Some(_) | None => None,
    }
}
