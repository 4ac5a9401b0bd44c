//! Laws of the value that a shared kernel keeps, over any store. Each is the contract of a function that does nothing.
ghost use Rattle.kern_shared.specs.Shares.{FewAreHeld, ReservedBeforeStarved, StandsAtBoot, StandsBehindBack, StandsBehindCleared, StandsBehindGiven, StandsBehindGone, StandsBehindKilled, StandsBehindLive, StandsBehindRefused, StandsBehindStarved, StandsBehindTurn};

use posix_defs::Turner;

/// A store at boot, with the seat of a charge that was booted for the heap of its script, stands for no item.
pub fn a_value_at_boot_stands_for_no_item<T: Turner>()
    ensures { StandsAtBoot T.stands T.script T.beside }
{}

/// A value that stands for some items stands for them with one that isn't an entry behind them, where that one may come, and
/// where what is kept of who is held and of Starved goes along. The store and its seat stay.
pub fn an_item_without_an_entry_leaves_the_store<T: Turner>()
    ensures given { StandsBehindGiven T.stands T.script T.beside }
    ensures back { StandsBehindBack T.stands T.script T.beside }
    ensures live { StandsBehindLive T.stands T.script T.beside }
    ensures starved { StandsBehindStarved T.stands T.script T.beside }
{}

/// A value that stands for some items stands for them with the entry of a held process behind them: the Gone of one that has
/// ended, that of a live one's turn, once the store has made it and the value's seat holds what is live then, and the refusal
/// of a call that the heap can never give.
pub fn an_entry_of_a_held_process_is_kept<T: Turner>()
    ensures gone { StandsBehindGone T.stands T.script T.beside }
    ensures turned { StandsBehindTurn T.stands T.script T.beside }
    ensures refused { StandsBehindRefused T.stands T.script T.beside }
{}

/// And with an eviction or a kill behind them, where a live process is held: an eviction from the first cache that can lose
/// something, or with nothing left to evict the victim's end, for a call that the heap might give but has no room for.
pub fn what_frees_heap_is_kept<T: Turner>()
    ensures cleared { StandsBehindCleared T.stands T.script T.beside }
    ensures killed { StandsBehindKilled T.stands T.script T.beside }
{}

/// Where what the value's seat holds and the bound of a live process's call lie within the heap together, as they do at a turn
/// whose call was reserved, nothing was answered Starved before.
pub fn a_reserved_call_finds_no_starved<T: Turner>()
    ensures { ReservedBeforeStarved T.stands T.script T.beside }
{}

/// A value keeps at most one held process more than entries, so what is reserved for as many entries and one more is enough.
pub fn few_processes_are_held<T: Turner>()
    ensures { FewAreHeld T.stands T.script T.beside }
{}
