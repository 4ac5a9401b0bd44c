//! Objects of all twelve classes in the heap.

ghost use Rattle.std.specs.Prelude.{◌≡◌, ◌+◌, ◌≤◌};
ghost use Rattle.kheap_slabs.specs.Heap.{live_bytes};

use kabi_types::ranges::{Kind, Range};
use kabi_types::{Control, Inode, Name27};
use kheap_slabs::{
    Access, Block, Chunk, Desc, DescFlags, Descriptor, KHeap, Leaf, Lock, Name, Node, Page,
    PageEntry, Pipe, Proc, QueueParts, Sock, SockState, Target, Vnode,
};
use std::test::Fail;

fn proc_of(pid: u32) -> Proc {
    let control = Control {
        program: 0,
        place: 0,
        regs: [0; 16],
        done: 0,
    };
    Proc {
        pid,
        parent: 0,
        status: None,
        cwd: 1,
        ignores_pipe: true,
        ignores_term: true,
        control,
        opening: None,
        descriptors: [None; 32],
        nodes: [None; 4],
        leaves: [None; 3],
    }
}

fn leaf_of(desc: u32) -> Leaf {
    let descriptor = Descriptor {
        desc,
        close_on_exec: false,
    };
    Leaf {
        descriptors: [Some(descriptor); 32],
    }
}

fn last_desc(leaf: &Leaf) -> Option<u32> {
    match leaf.descriptors[31] {
        Some(descriptor) => Some(descriptor.desc),
        None => None,
    }
}

fn lock_of(pid: u32) -> Lock {
    Lock {
        pid,
        node: 2,
        range: Range {
            kind: Kind::Shared,
            start: 0,
            last: 9,
        },
        next: None,
    }
}

fn node_of(page: u32) -> Node {
    Node {
        entries: [PageEntry::Frame(page); 64],
    }
}

fn page_of(byte: u8) -> Page {
    Page {
        bytes: [byte; 4096],
        count: 1,
    }
}

fn desc_of(offset: u64) -> Desc {
    Desc {
        target: Target::Inode(1),
        offset,
        access: Access::Both,
        flags: DescFlags {
            append: false,
            nonblock: false,
        },
        count: 1,
    }
}

fn vnode_of(number: u32) -> Vnode {
    Vnode {
        number,
        inode: Inode {
            kind: 1,
            nlink: 1,
            size: 0,
            direct: [0; 10],
            indirect: 0,
            double: 0,
        },
        pins: 0,
    }
}

fn name_of(node: u32) -> Name {
    match Name27::of(b"file") {
        Some(name) => Name { dir: 1, name, node },
        None => unreachable!(),
    }
}

fn block_of(number: u32) -> Block {
    Block {
        number,
        bytes: [0; 1024],
    }
}

fn pipe_of(readers: u32) -> Pipe {
    let queue = QueueParts {
        first: None,
        last: None,
        place: 0,
        len: 0,
    };
    Pipe {
        queue,
        readers,
        writers: 1,
        node: 0,
        read_opens: 0,
        write_opens: 0,
        next: None,
    }
}

fn chunk_of(byte: u8) -> Chunk {
    Chunk {
        bytes: [byte; 512],
        next: None,
    }
}

fn sock_of(node: u32) -> Sock {
    Sock {
        state: SockState::Idle,
        queue: QueueParts::default(),
        peer: None,
        node: Some(node),
        waiting: [None; 8],
    }
}

// For each class: makes an object, frees it and makes another. True where both are read as they
// were made.

fn renew_proc(heap: &mut KHeap) -> bool
    requires { live_bytes heap.old + 512 ≤ heap.old.heap }
    ensures heap { heap.new.heap ≡ heap.old.heap }
    ensures live { live_bytes heap.new ≡ live_bytes heap.old + 512 }
{
    let first = heap.insert_proc(proc_of(3));
    let freed = heap.free_proc(first);
    let second = heap.insert_proc(proc_of(5));
    let found = heap.get_proc(second);
    freed.pid == 3 && found.pid == 5
}

fn renew_node(heap: &mut KHeap) -> bool
    requires { live_bytes heap.old + 512 ≤ heap.old.heap }
    ensures heap { heap.new.heap ≡ heap.old.heap }
    ensures live { live_bytes heap.new ≡ live_bytes heap.old + 512 }
{
    let first = heap.insert_node(node_of(3));
    let freed = heap.free_node(first);
    let second = heap.insert_node(node_of(5));
    let found = heap.get_node(second);
    freed.entries[63] == PageEntry::Frame(3) && found.entries[63] == PageEntry::Frame(5)
}

fn renew_page(heap: &mut KHeap) -> bool
    requires { live_bytes heap.old + 4096 ≤ heap.old.heap }
    ensures heap { heap.new.heap ≡ heap.old.heap }
    ensures live { live_bytes heap.new ≡ live_bytes heap.old + 4096 }
{
    let first = heap.insert_page(page_of(3));
    let freed = heap.free_page(first);
    let second = heap.insert_page(page_of(5));
    let found = heap.get_page(second);
    freed.bytes[4095] == 3 && found.bytes[4095] == 5
}

fn renew_desc(heap: &mut KHeap) -> bool
    requires { live_bytes heap.old + 64 ≤ heap.old.heap }
    ensures heap { heap.new.heap ≡ heap.old.heap }
    ensures live { live_bytes heap.new ≡ live_bytes heap.old + 64 }
{
    let first = heap.insert_desc(desc_of(3));
    let freed = heap.free_desc(first);
    let second = heap.insert_desc(desc_of(5));
    let found = heap.get_desc(second);
    freed.offset == 3 && found.offset == 5
}

fn renew_vnode(heap: &mut KHeap) -> bool
    requires { live_bytes heap.old + 128 ≤ heap.old.heap }
    ensures heap { heap.new.heap ≡ heap.old.heap }
    ensures live { live_bytes heap.new ≡ live_bytes heap.old + 128 }
{
    let first = heap.insert_vnode(vnode_of(3));
    let freed = heap.free_vnode(first);
    let second = heap.insert_vnode(vnode_of(5));
    let found = heap.get_vnode(second);
    freed.number == 3 && found.number == 5
}

fn renew_name(heap: &mut KHeap) -> bool
    requires { live_bytes heap.old + 64 ≤ heap.old.heap }
    ensures heap { heap.new.heap ≡ heap.old.heap }
    ensures live { live_bytes heap.new ≡ live_bytes heap.old + 64 }
{
    let first = heap.insert_name(name_of(3));
    let freed = heap.free_name(first);
    let second = heap.insert_name(name_of(5));
    let found = heap.get_name(second);
    freed.node == 3 && found.node == 5
}

fn renew_block(heap: &mut KHeap) -> bool
    requires { live_bytes heap.old + 1088 ≤ heap.old.heap }
    ensures heap { heap.new.heap ≡ heap.old.heap }
    ensures live { live_bytes heap.new ≡ live_bytes heap.old + 1088 }
{
    let first = heap.insert_block(block_of(3));
    let freed = heap.free_block(first);
    let second = heap.insert_block(block_of(5));
    let found = heap.get_block(second);
    freed.number == 3 && found.number == 5
}

fn renew_pipe(heap: &mut KHeap) -> bool
    requires { live_bytes heap.old + 128 ≤ heap.old.heap }
    ensures heap { heap.new.heap ≡ heap.old.heap }
    ensures live { live_bytes heap.new ≡ live_bytes heap.old + 128 }
{
    let first = heap.insert_pipe(pipe_of(3));
    let freed = heap.free_pipe(first);
    let second = heap.insert_pipe(pipe_of(5));
    let found = heap.get_pipe(second);
    freed.readers == 3 && found.readers == 5
}

fn renew_chunk(heap: &mut KHeap) -> bool
    requires { live_bytes heap.old + 576 ≤ heap.old.heap }
    ensures heap { heap.new.heap ≡ heap.old.heap }
    ensures live { live_bytes heap.new ≡ live_bytes heap.old + 576 }
{
    let first = heap.insert_chunk(chunk_of(3));
    let freed = heap.free_chunk(first);
    let second = heap.insert_chunk(chunk_of(5));
    let found = heap.get_chunk(second);
    freed.bytes[511] == 3 && found.bytes[511] == 5
}

fn renew_sock(heap: &mut KHeap) -> bool
    requires { live_bytes heap.old + 128 ≤ heap.old.heap }
    ensures heap { heap.new.heap ≡ heap.old.heap }
    ensures live { live_bytes heap.new ≡ live_bytes heap.old + 128 }
{
    let first = heap.insert_sock(sock_of(3));
    let freed = heap.free_sock(first);
    let second = heap.insert_sock(sock_of(5));
    let found = heap.get_sock(second);
    freed.node == Some(3) && found.node == Some(5)
}

fn renew_leaf(heap: &mut KHeap) -> bool
    requires { live_bytes heap.old + 256 ≤ heap.old.heap }
    ensures heap { heap.new.heap ≡ heap.old.heap }
    ensures live { live_bytes heap.new ≡ live_bytes heap.old + 256 }
{
    let first = heap.insert_leaf(leaf_of(3));
    let freed = heap.free_leaf(first);
    let second = heap.insert_leaf(leaf_of(5));
    let found = heap.get_leaf(second);
    last_desc(&freed) == Some(3) && last_desc(found) == Some(5)
}

fn renew_lock(heap: &mut KHeap) -> bool
    requires { live_bytes heap.old + 64 ≤ heap.old.heap }
    ensures heap { heap.new.heap ≡ heap.old.heap }
    ensures live { live_bytes heap.new ≡ live_bytes heap.old + 64 }
{
    let first = heap.insert_lock(lock_of(3));
    let freed = heap.free_lock(first);
    let second = heap.insert_lock(lock_of(5));
    let found = heap.get_lock(second);
    freed.pid == 3 && found.pid == 5
}

// 512 + 512 + 4096 + 64 + 128 + 64 + 1088 + 128 + 576 + 128 + 256 + 64 bytes.
fn renew_each(heap: &mut KHeap) -> bool
    requires { live_bytes heap.old + 7616 ≤ heap.old.heap }
    ensures heap { heap.new.heap ≡ heap.old.heap }
    ensures live { live_bytes heap.new ≡ live_bytes heap.old + 7616 }
{
    let procs = renew_proc(heap);
    let nodes = renew_node(heap);
    let pages = renew_page(heap);
    let descs = renew_desc(heap);
    let vnodes = renew_vnode(heap);
    let names = renew_name(heap);
    let blocks = renew_block(heap);
    let pipes = renew_pipe(heap);
    let chunks = renew_chunk(heap);
    let socks = renew_sock(heap);
    let leaves = renew_leaf(heap);
    let locks = renew_lock(heap);
    let memory = procs && nodes && pages;
    let files = descs && vnodes && names && blocks;
    memory && files && pipes && chunks && socks && leaves && locks
}

/// Objects of all twelve classes, each made, freed and made again, and a chunk fill a heap of 8192
/// bytes to its last byte.
#[test]
fn twelve_classes_fill_the_least_heap(rt: HostRuntime) -> Result<(), Fail> {
    let mut heap = KHeap::boot(rt.alloc(), 8192)?;
    let empty = heap.live();
    let twelve = renew_each(&mut heap);
    let between = heap.live();
    let chunk = renew_chunk(&mut heap);
    assert!(rt; empty == 0 && between == 7616 && heap.live() == 8192);
    assert!(rt; heap.high() == 8192 && heap.heap() == 8192);
    assert!(rt; twelve && chunk);
    drop(heap);
    Ok(())
}

// As many descriptions as the greatest heap has room for: 8388608 / 64.
fn fill_with_descs(heap: &mut KHeap)
    requires empty { live_bytes heap.old ≡ 0 }
    requires size { heap.old.heap ≡ 8388608 }
    ensures { live_bytes heap.new ≡ 8388608 }
{
    for offset in 0..131072 {
        let key = heap.insert_desc(desc_of(offset));
        prove!(key < 131072);
    }
}

/// The greatest heap takes as many objects of a class as its bytes allow.
#[test]
fn a_class_fills_the_greatest_heap(rt: HostRuntime) -> Result<(), Fail> {
    let mut heap = KHeap::boot(rt.alloc(), 8388608)?;
    fill_with_descs(&mut heap);
    assert!(rt; heap.live() == 8388608 && heap.high() == 8388608 && heap.heap() == 8388608);
    drop(heap);
    Ok(())
}
