//! A whole run by workers.
ghost use Rattle.std.specs.Prelude.{◌≡◌, ◌<◌, true, Some, IfOk};
ghost use Rattle.kabi_types.specs.declared.entries.End.{End};
ghost use Rattle.posix_defs.specs.Sizes.{fixed};
ghost use Rattle.posix_defs.specs.World.{boot_world};
ghost use Rattle.work_crew.specs.Whole.{IsWhole};

use crate::{Door, crew};
use charge_words::{Charge, ChargeSeat};
use kabi_types::Memory;
use kern_shared::{Closed, Kernel, RunName};
use posix_defs::Turner;
use std::alloc::Global;
use std::sync::Wait;
use std::thread::Threads;

/// Runs a store at boot to the end of its script by so many workers, and tells what came of it: the history, the end that stands, what is
/// charged in bytes, and the store. An error is want of memory at boot; then nothing was run, and what was handed in is dropped.
pub fn run_workers<
    T: Turner + Drop + Send,
    L: RunName + Send + Sync,
    D: Door + Sync,
    R: Threads + Wait + Sync,
>(
    rt: &R,
    alloc: Global,
    store: T,
    steps: u32,
    heap: u64,
    workers: u32,
    charge: Charge,
    seat: ChargeSeat,
    door: &D,
) -> Result<Closed<T>, Memory>
    requires booted { T.stands store (boot_world (T.script store)) }
    requires script { L.script ≡ T.script store }
    requires steps { L.steps ≡ steps }
    requires charge { L.charge ≡ charge }
    requires heap { heap ≡ (T.script store).heap }
    requires word { charge.heap ≡ (T.script store).heap }
    requires workers { 0 < workers }
    requires seat { seat.charge ≡ charge }
    requires boot { (seat.known.is_boot ≡ true) × (seat.known.others ≡ 0) }
    requires holds { seat.known.holds ≡ fixed }
    requires unused { seat.known.reserves ≡ 0 }
    ensures { IfOk result (λ closed. (end : End) × (closed.end ≡ Some end)
        × IsWhole T.stands T.script T.beside (T.script store) steps closed.history end closed.charged closed.store) }
{
    let (kernel, mut passes) = Kernel::<T, L>::boot(
        alloc, store, steps, heap, workers, charge, seat,
    )?;
    crew(rt, &kernel, passes.as_mut_slice(), door);
    Ok(kernel.close(passes))
}
