ghost use Rattle.std.specs.Prelude.{◌≡◌, ◌*◌, ◌<◌, ◌≤◌, ◌^◌, max};
ghost use Rattle.kabi_types.specs.Class.{size};
ghost use Rattle.kabi_types.specs.Counts.{need_bytes};
ghost use Rattle.kabi_types.specs.declared.classes.Class.TheVariants.{Block, Chunk};
ghost use Rattle.posix_defs.specs.Needs.{bound, is_write};

use crate::needs::need;
use kabi_types::{Call, CallKind, Class, Need};

/// How many bytes so many objects of a class take.
fn taken(class: Class, count: u32) -> u64
    ensures value { result ≡ count * size class }
    ensures below { result < 2 ^ 44 }
{
    u64::from(count) * class.bytes()
}

/// How many bytes the objects of all classes take.
fn total(need: &Need) -> u64
    ensures { result ≡ need_bytes need.now }
{
    let classes: &[Class] = &Class::ALL;
    let mut bytes = 0;
    for class in classes {
        bytes += taken(*class, need.count(*class));
    }
    bytes
}

/// What the blocks of a need take, or its chunks, whichever is more.
fn greater_part(need: &Need) -> u64
    ensures { result ≡ max (need.now.block * size Block) (need.now.chunk * size Chunk) }
{
    taken(Class::Block, need.block).max(taken(Class::Chunk, need.chunk))
}

/// A write needs room for a file or for a queue, and never for both.
fn is_write(kind: CallKind) -> bool
    ensures { result ≡ is_write kind }
{
    matches!(kind, CallKind::Write | CallKind::Pwrite)
}

/// The kernel heap that a call may use, in bytes: its need by the sizes of the classes, of a write the greater of its
/// blocks and its chunks. It is 0 where an operand is wrong.
pub fn bound(call: &Call) -> u64
    ensures value { result ≡ bound call.now }
    ensures most { result ≤ 39040 }
{
    let need = need(call);
    if is_write(call.kind()) {
        greater_part(&need)
    } else {
        total(&need)
    }
}
