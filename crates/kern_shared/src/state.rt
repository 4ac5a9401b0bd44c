//! The value that the passes of a shared kernel have in turn.
ghost use Rattle.std.specs.Prelude.{◌≡◌, ◌++◌, ◌∷◌, List, [], IfOk, true};
ghost use Rattle.kabi_types.specs.declared.scripts.Script.{Script};
ghost use Rattle.posix_defs.specs.Sizes.{fixed};
ghost use Rattle.posix_defs.specs.World.{boot_world};
ghost use Rattle.turn_words.specs.declared.items.Item.{Item};
ghost use Rattle.turn_words.specs.declared.items.Item.TheVariants.{Back};
ghost use Rattle.turn_words.specs.Items.{is_given};
ghost use Rattle.kern_shared.specs.Shares.{Shares};

use crate::Held;
use charge_words::ChargeSeat;
use kabi_types::{Entry, Memory};
use posix_defs::Turner;
use std::alloc::Global;
use std::marker::PhantomData;
use turn_words::Chronicle;

/// What is charged at boot, in bytes.
pub(crate) const FIXED: u64 = 2816;

/// Two blocks, which closing and ending may always use, in bytes.
pub(crate) const RESERVE: u64 = 2176;

/// The names of one run. They stand in proofs alone: what is known of a value that passes share is said by them.
pub trait RunName {
    ghost use Rattle.std.specs.Prelude.{ℕ};
    ghost use Rattle.kabi_types.specs.declared.scripts.Script.{Script};
    ghost use Rattle.charge_words.specs.Names.{ChargeWord};

    /// The script that is run.
    ghost script: { Script };

    /// How many entries the history may have.
    ghost steps: { ℕ };

    /// The charge word.
    ghost charge: { ChargeWord };
}

/// What the passes of a kernel share: the store with the charge seat of its live bytes, how many entries there may be, the
/// heap, the entries so far, the processes that passes hold, the live processes that don't doze and those that do, and whether Starved
/// was answered.
#[derive(Drop)]
pub struct KernelState<T: Turner + Drop, L: RunName> {
    pub(crate) store: T,
    pub(crate) seat: ChargeSeat,
    pub(crate) steps: u32,
    pub(crate) heap: u64,
    pub(crate) history: Vec<Entry>,
    pub(crate) held: Vec<Held>,
    pub(crate) awake: Vec<u32>,
    pub(crate) dozing: Vec<u32>,
    pub(crate) starved: bool,
    run: PhantomData<L>,
}

impl<T: Turner + Drop, L: RunName> Chronicle for KernelState<T, L> {
    ghost use Rattle.std.specs.Prelude.{vec_capacity};
    ghost use Rattle.kern_shared.specs.Shares.{Shares};

    ghost stands = { λ state items. Shares T.stands T.script T.beside L.script L.steps L.charge (record {
      store = state.store;
      seat = state.seat;
      steps = state.steps;
      heap = state.heap;
      history = state.history.items;
      held = state.held.items;
      awake = state.awake.items;
      dozing = state.dozing.items;
      starved = state.starved;
      entry_room = vec_capacity state.history;
      held_room = vec_capacity state.held;
      awake_room = vec_capacity state.awake;
      dozing_room = vec_capacity state.dozing;
    }) items };
}

impl<T: Turner + Drop, L: RunName> KernelState<T, L> {
    /// The value of a kernel at boot, which stands for no item. It reserves room for all entries and processes of the run.
    pub fn boot(
        alloc: Global,
        store: T,
        steps: u32,
        heap: u64,
        seat: ChargeSeat,
    ) -> Result<KernelState<T, L>, Memory>
        requires booted { T.stands store (boot_world (T.script store)) }
        requires script { L.script ≡ T.script store }
        requires steps { L.steps ≡ steps }
        requires charge { L.charge ≡ seat.charge }
        requires heap { heap ≡ (T.script store).heap }
        requires word { seat.charge.heap ≡ (T.script store).heap }
        requires boot { seat.known.is_boot ≡ true }
        requires holds { seat.known.holds ≡ fixed }
        ensures stands { IfOk result (λ state. ⟦<KernelState<T, L> as Chronicle>⟧.stands state []) }
        ensures seat { IfOk result (λ state. state.seat ≡ seat) }
    {
        let history = Vec::with_capacity(alloc, steps as usize)?;
        let held = Vec::with_capacity(alloc, steps as usize + 1)?;
        let mut awake = Vec::with_capacity(alloc, steps as usize + 2)?;
        let dozing = Vec::with_capacity(alloc, steps as usize + 2)?;
        awake.push_reserved(1);
        Ok(KernelState {
            store,
            seat,
            steps,
            heap,
            history,
            held,
            awake,
            dozing,
            starved: false,
            run: PhantomData,
        })
    }

    /// Takes a process back that a pass holds, unchanged.
    pub fn release_held(&mut self, pid: u32)
        ensures stands { (items : List Item) → ⟦<KernelState<T, L> as Chronicle>⟧.stands self.old items → is_given pid items ≡ true
            → ⟦<KernelState<T, L> as Chronicle>⟧.stands self.new (items ++ Back pid ∷ []) }
        ensures seat { self.new.seat ≡ self.old.seat }
    {
        self.held.retain(|other| other.pid != pid);
    }
}
