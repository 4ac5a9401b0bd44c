//! The words of calls, and the shapes of their operands.

ghost use Rattle.std.specs.Prelude.{◌≡◌};
ghost use Rattle.posix_defs.specs.ScriptLines as spec;

use crate::values::is_word;
use crate::{Shape, Word};
use kabi_types::CallKind;

/// The call that a word names; None where it names none.
pub fn kind_said(word: &Word) -> Option<CallKind>
    ensures { result ≡ spec.kind_said word.now }
{
    kind_among(&CallKind::ALL, word)
}

fn kind_among(kinds: &[CallKind], word: &Word) -> Option<CallKind>
    ensures { result ≡ spec.kind_among kinds.now word.now }
{
    let mut rest = kinds;
    while let Some((kind, next)) = rest.split_first() {
        if is_word(word, kind.word()) {
            return Some(*kind);
        }
        rest = next;
    }
    None
}

/// Which operands a call has, in the order of its fields.
pub fn shape_of(kind: CallKind) -> Shape
    ensures { result ≡ spec.shape_of kind }
{
    match kind {
        CallKind::Getpid
        | CallKind::Getppid
        | CallKind::SchedYield
        | CallKind::Fork
        | CallKind::Pipe
        | CallKind::Socket
        | CallKind::Socketpair => Shape::Values(0),
        CallKind::Exec
        | CallKind::Stat
        | CallKind::Chdir
        | CallKind::Mkdir
        | CallKind::Rmdir
        | CallKind::Unlink
        | CallKind::Mkfifo => Shape::OnePath,
        CallKind::Exit
        | CallKind::Mmap
        | CallKind::Close
        | CallKind::Dup
        | CallKind::Fstat
        | CallKind::Listen
        | CallKind::Accept => Shape::Values(1),
        CallKind::Waitpid
        | CallKind::Kill
        | CallKind::Signal
        | CallKind::Munmap
        | CallKind::Load
        | CallKind::Dup2
        | CallKind::Ftruncate
        | CallKind::Shutdown => Shape::Values(2),
        CallKind::Store => Shape::ValueBytes,
        CallKind::OpenFile => Shape::PathValue,
        CallKind::Fcntl | CallKind::Read | CallKind::Write | CallKind::Lseek | CallKind::Readdir =>
            Shape::Values(3),
        CallKind::Pread | CallKind::Pwrite | CallKind::Setlk | CallKind::Setlkw | CallKind::Getlk =>
            Shape::Values(4),
        CallKind::Link | CallKind::Rename => Shape::TwoPaths,
        CallKind::Bind | CallKind::Connect => Shape::ValuePath,
        CallKind::Poll => Shape::Pairs,
    }
}
