//! What the core asks of the store.
ghost use Rattle.std.proofs.Common.{rules};
ghost use Rattle.std.specs.Prelude.{◌≡◌, false, []};
ghost use Rattle.priced_store.specs.declared.stages.Stage.TheVariants.{Begun};
ghost use Rattle.priced_store.specs.Worlds.{live_in, maps};

use crate::arena::{Arena, Purse};
use crate::calls::run;
use crate::prices::price;
use crate::stages::Stage;
use kabi_types::{Cached, Call, Need};
use need_table::bound;
use posix_defs::{Asked, Turned, Turner};

/// The store: how far its process has come, and its heap.
#[derive(Drop)]
pub struct Maps {
    stage: Stage,
    arena: Arena,
    ghost taken: { arena.used ≡ live_in stage },
    ghost rests: { arena.risen ≡ arena.used },
}

impl Maps {
    /// The process at its start, on so much heap.
    pub fn boot(heap: u64) -> Maps
        ensures stage { result.stage ≡ Begun }
        ensures heap { result.arena.heap ≡ heap }
    {
        Maps {
            stage: Stage::Begun,
            // In use are the process, 512 bytes, and the root's inode, 128, which every machine has from its boot on.
            arena: Arena {
                heap,
                used: 640,
                risen: 640,
                high: 640,
                marks: 0,
            },
        }
    }
}

impl Turner for Maps {
    ghost use Rattle.priced_store.specs.Standing.{KeepsToPrice, Stands, high_of, marks_of};

    ghost script = { λ store. maps store.arena.heap };

    ghost stands = { Stands };

    ghost marks = { marks_of };

    ghost high = { high_of };

    ghost risen = { λ store. store.arena.risen };

    ghost beside = { λ old pid call told new. KeepsToPrice old call new };

    ghost settled = { λ _ _. false };

    ghost stirred = { λ _. [] };

    fn next(&self, _pid: u32) -> Call {
        self.stage.call()
    }

    fn asks(&self, pid: u32) -> Asked {
        let call = self.next(pid);
        Asked {
            kind: call.kind(),
            bound: bound(&call),
        }
    }

    fn turn(&mut self, pid: u32, call: &Call, _need: Need) -> Turned {
        if !self.alive(pid) {
            self.arena.mark();
            return Turned::Gone;
        }
        let stage = self.stage;
        let mut purse = Purse { left: price(call) };
        run(&mut self.arena, &mut purse, stage);
        self.stage = stage.after();
        self.arena.mark();
        stage.told()
    }

    fn refuse(&mut self, _pid: u32) {
        self.stage = self.stage.refused();
        self.arena.mark();
    }

    fn ready(&self, _pid: u32) -> bool {
        true
    }

    fn settles(&self, _pid: u32) -> bool {
        false
    }

    fn stirred(&self) -> &[u32] {
        &[]
    }

    fn evictable(&self, _what: Cached) -> bool {
        false
    }

    fn evict(&mut self, _what: Cached) {
        self.arena.mark();
    }

    fn victim(&self) -> Option<u32> {
        None
    }

    fn kill(&mut self, _pid: u32) {
        self.arena.mark();
    }

    fn alive(&self, pid: u32) -> bool {
        pid == 1 && self.stage.lives()
    }

    fn last_pid(&self) -> u32 {
        1
    }

    fn live(&self) -> u64 {
        self.arena.used
    }

    fn reads(&self) -> u64 {
        0
    }

    ghost settled_block = { Prim.search rules };
}
