//! The store that the core runs: the script, the heap with the processes of the script in it, and the tree of files beside it.

ghost use Rattle.std.specs.Prelude.{◌≡◌, ◌≤◌, IfOk, length};
ghost use Rattle.file_calls.specs.Bytes.{ReadsCached};
ghost use Rattle.kabi_types.specs.declared.scripts.Script.{Script};
ghost use Rattle.posix_defs.specs.Plain as plain;
ghost use Rattle.posix_defs.specs.ValidScript.{IsValid};
ghost use Rattle.posix_defs.specs.World.{boot_world};
ghost use Rattle.call_run.specs.Settled.{settled_blocks};
ghost use Rattle.call_run.specs.Sleepers.{is_settled};
ghost use Rattle.call_run.specs.Stores.{Stands};

use crate::calls::Buffers;
use crate::sleepers::{Sleepers, goes_on};
use crate::{turns, victims};
use kabi_types::{Cached, Call, Control, Memory, Need, Program, Script};
use posix_defs::{Asked, Turned, Turner};
use std::alloc::Global;
use std::marker::Model;
use store_objects::{Objects, booted, evictable};
use victim_core::{Score, Scorer};

/// A store of the processes of a script, in a heap whose room is reserved at boot. It is told how processes are scored where
/// one has to be killed.
#[derive(Drop)]
pub struct Store<F: Scorer, G: Scorer> {
    script: Script,
    objects: Objects,
    buffers: Buffers,
    score: Score<F, G>,
    sleepers: Sleepers,
}

impl<F: Scorer, G: Scorer> Model for Store<F, G> {
    ghost use Rattle.store_objects.specs.Objects.{AreKept};
    ghost use Rattle.call_run.specs.Stores.{StoreView};

    ghost Value = { StoreView };

    ghost view = { λ store. record { script = store.script; objects = store.objects; sleepers = store.sleepers } };

    ghost invariant = { λ store. AreKept store.script store.objects };
}

impl<F: Scorer, G: Scorer> Store<F, G> {
    /// The first process alone, at the start of the program `init` of the script, of which the store keeps a copy. `Memory` comes where the host has no memory left, and nothing else.
    pub fn boot(alloc: Global, script: &Script, score: Score<F, G>) -> Result<Store<F, G>, Memory>
        requires valid { IsValid script.now }
        ensures script { IfOk result (λ store. store.script ≡ script.now) }
        ensures booted { IfOk result (λ store. Stands store (boot_world script.now)) }
    {
        // The greater, the later: where memory is wanting, what is there already is let go.
        let buffers = Buffers::new(alloc)?;
        let script = script.copy(alloc)?;
        let mut control = Control {
            program: place_of(script.programs.items(), b"init"),
            place: 0,
            regs: [0; 16],
            done: 0,
        };
        prog_ctl::go_to_call(&script, &mut control);
        let mut objects = booted(alloc, script.heap, script.disk, control)?;
        objects.heap.mark();
        Ok(Store {
            script,
            objects,
            buffers,
            score,
            sleepers: Sleepers::new(),
        })
    }
}

/// The place of the first program of this name; the number of programs where there is none.
fn place_of(programs: &[Program], name: &[u8]) -> u32
    requires { length programs.now ≤ 64 }
    ensures { result ≡ plain.place_of name.now programs.now }
{
    let mut place = 0;
    let mut rest = programs;
    while let Some((program, next)) = rest.split_first() {
        if program.name.items() == name {
            break;
        }
        place += 1;
        rest = next;
    }
    place
}

impl<F: Scorer, G: Scorer> Turner for Store<F, G> {
    ghost script = { λ store. store.script };

    ghost stands = { λ store world. Stands store world };

    ghost marks = { λ store. store.objects.heap.marks };

    ghost high = { λ store. store.objects.heap.last_high };

    ghost risen = { λ store. store.objects.heap.high };

    ghost beside = { λ old pid call told new. ReadsCached old.objects pid call told new.objects };

    ghost settled = { λ store pid. is_settled store.sleepers.told pid };

    ghost stirred = { λ store. store.sleepers.stirred };

    fn next(&self, pid: u32) -> Call {
        turns::next(&self.script, &self.objects, pid)
    }

    fn asks(&self, pid: u32) -> Asked {
        turns::asks(&self.script, &self.objects, pid)
    }

    fn turn(&mut self, pid: u32, call: &Call, need: Need) -> Turned {
        let turned = turns::turn(
            &self.script,
            &mut self.objects,
            &mut self.buffers,
            pid,
            call,
            need,
        );
        self.sleepers
            .keep_in_mind(&self.script, &self.objects, pid, call, &turned);
        turned
    }

    fn refuse(&mut self, pid: u32) {
        turns::refuse(&self.script, &mut self.objects, pid);
        self.sleepers.refused(&self.script, &self.objects, pid);
    }

    // It is asked at many places.
    #[inline(never)]
    fn ready(&self, pid: u32) -> bool {
        match self.sleepers.told(pid) {
            Some(blocks) => !blocks,
            None => goes_on(&self.script, &self.objects, &mut None, pid),
        }
    }

    fn settles(&self, pid: u32) -> bool {
        self.sleepers.settles(pid)
    }

    fn stirred(&self) -> &[u32] {
        self.sleepers.stirred()
    }

    fn evictable(&self, what: Cached) -> bool {
        evictable(&self.objects, what)
    }

    fn evict(&mut self, what: Cached) {
        turns::evict(&mut self.objects, what);
        self.sleepers.evicted();
    }

    fn victim(&self) -> Option<u32> {
        victims::victim(&self.score, self.script.policy, &self.objects)
    }

    fn kill(&mut self, pid: u32) {
        turns::kill(&mut self.objects, pid);
        self.sleepers.killed(&self.script, &self.objects);
    }

    fn alive(&self, pid: u32) -> bool {
        self.objects.runs(pid)
    }

    fn last_pid(&self) -> u32 {
        self.objects.procs.last_pid()
    }

    fn live(&self) -> u64 {
        self.objects.heap_is_well_formed();
        self.objects.heap.live()
    }

    fn reads(&self) -> u64 {
        self.objects.tree.reads()
    }

    ghost settled_block = { λ store world pid stands settled alive. settled_blocks store world pid stands settled };
}
