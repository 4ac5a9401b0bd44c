//! A disk of blocks in a list, through the trait by which layers meet.

ghost use Rattle.std.specs.Prelude.{◌<◌, length};

use posix_defs::{BlockList, Blocks};

/// Writes a block of sevens and reads two blocks, through the trait alone.
fn write_and_read<B: Blocks>(disk: &mut B) -> (u8, u8)
    requires { 3 < length (B.blocks disk.old) }
{
    disk.set(2, &[7; 1024]);
    let (written, other) = (disk.get(2), disk.get(3));
    (written[1023], other[1023])
}

#[test]
fn blocks_are_written_one_by_one(rt: HostRuntime) {
    let blocks = vec![in rt.alloc(); [0; 1024]; 4].expect(&rt, "memory");
    let mut disk = BlockList { blocks };
    assert!(rt; disk.blocks.len() == 4);
    let read = write_and_read(&mut disk);
    assert!(rt; read == (7, 0) && disk.count() == 4);
    drop(disk);
}
