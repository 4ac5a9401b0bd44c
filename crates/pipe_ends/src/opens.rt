ghost use Rattle.std.specs.Prelude.{◌≡◌, ℕ};
ghost use Rattle.posix_defs.specs.Pipe.{Pipe as PlainPipe, fifo_of, opens_of};
ghost use Rattle.pipe_ends.specs.Standing.{StandsFor, IsPipeAt};

use kheap_slabs::KHeap;

/// The node of the FIFO whose pipe it is; None of a pipe that `pipe` made.
pub fn pipe_fifo(heap: &KHeap, key: u32) -> Option<u32>
    requires { IsPipeAt heap.now key }
    ensures { (pipe : PlainPipe) (at : ℕ) → StandsFor heap.now key pipe at → result ≡ fifo_of pipe }
{
    let node = heap.get_pipe(key).node;
    if node == 0 { None } else { Some(node) }
}

/// How often one side of a FIFO was opened so far, by its pipe; 0 of a pipe that `pipe` made.
pub fn pipe_opens(heap: &KHeap, key: u32, writing: bool) -> u32
    requires { IsPipeAt heap.now key }
    ensures { (pipe : PlainPipe) (at : ℕ) → StandsFor heap.now key pipe at → result ≡ opens_of pipe writing }
{
    let pipe = heap.get_pipe(key);
    if writing {
        pipe.write_opens
    } else {
        pipe.read_opens
    }
}
