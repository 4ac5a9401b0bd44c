ghost use Rattle.std.specs.Prelude.{◌≡◌};
ghost use Rattle.kabi_types.specs.Class.{size};
ghost use Rattle.kabi_types.specs.Counts.{counted, with_count};

/// A class of kernel objects.
#[derive(Clone, Copy)]
pub enum Class {
    /// A process; after its end too, until its parent has waited for it.
    Proc,
    /// A group of 64 neighbouring page entries.
    Node,
    /// A frame of memory.
    Page,
    /// An open file description.
    Desc,
    /// A cached inode.
    Vnode,
    /// A cached directory entry.
    Name,
    /// A cached disk block.
    Block,
    Pipe,
    /// 512 bytes of a queue.
    Chunk,
    /// A socket.
    Sock,
    /// 32 further descriptors of a process, of which one is open.
    Leaf,
    /// A range of a file that a process has locked.
    Lock,
}

impl Class {
    /// All classes, in the order in which the price list has them.
    pub const ALL: [Class; 12] = [
        Class::Proc,
        Class::Node,
        Class::Page,
        Class::Desc,
        Class::Vnode,
        Class::Name,
        Class::Block,
        Class::Pipe,
        Class::Chunk,
        Class::Sock,
        Class::Leaf,
        Class::Lock,
    ];

    /// How many bytes of kernel heap an object takes.
    pub fn bytes(self) -> u64
        ensures { result ≡ size self }
    {
        match self {
            Class::Proc => 512,
            Class::Node => 512,
            Class::Page => 4096,
            Class::Desc => 64,
            Class::Vnode => 128,
            Class::Name => 64,
            Class::Block => 1088,
            Class::Pipe => 128,
            Class::Chunk => 576,
            Class::Sock => 128,
            Class::Leaf => 256,
            Class::Lock => 64,
        }
    }
}

/// How many objects of each class a call may make.
#[derive(Clone, Copy, Default)]
pub struct Need {
    pub proc: u32,
    pub node: u32,
    pub page: u32,
    pub desc: u32,
    pub vnode: u32,
    pub name: u32,
    pub block: u32,
    pub pipe: u32,
    pub chunk: u32,
    pub sock: u32,
    pub leaf: u32,
    pub lock: u32,
}

impl Need {
    /// How many objects of the class are counted.
    pub fn count(&self, class: Class) -> u32
        ensures { result ≡ counted self.now class }
    {
        match class {
            Class::Proc => self.proc,
            Class::Node => self.node,
            Class::Page => self.page,
            Class::Desc => self.desc,
            Class::Vnode => self.vnode,
            Class::Name => self.name,
            Class::Block => self.block,
            Class::Pipe => self.pipe,
            Class::Chunk => self.chunk,
            Class::Sock => self.sock,
            Class::Leaf => self.leaf,
            Class::Lock => self.lock,
        }
    }

    /// The same counts, with another one for the class.
    pub fn with_count(mut self, class: Class, count: u32) -> Need
        ensures { result ≡ with_count self class count }
    {
        match class {
            Class::Proc => self.proc = count,
            Class::Node => self.node = count,
            Class::Page => self.page = count,
            Class::Desc => self.desc = count,
            Class::Vnode => self.vnode = count,
            Class::Name => self.name = count,
            Class::Block => self.block = count,
            Class::Pipe => self.pipe = count,
            Class::Chunk => self.chunk = count,
            Class::Sock => self.sock = count,
            Class::Leaf => self.leaf = count,
            Class::Lock => self.lock = count,
        }
        self
    }
}

/// What a process weighs where a victim is chosen.
#[derive(Clone, Copy, Default)]
pub struct Weight {
    pub pid: u32,
    /// How many of its page entries name a frame.
    pub frames: u32,
    /// How many of its groups of 64 page entries have a mapped page.
    pub nodes: u32,
    /// How many descriptors it has open.
    pub descs: u32,
}
