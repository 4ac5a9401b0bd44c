//! What it costs to ask for blocks, one after another. Each law is the contract of a function that does nothing.
ghost use Rattle.std.specs.Prelude.{ℕ, List, ◌++◌, ◌∷◌, []};
ghost use Rattle.std.specs.List.{AllByRecursion};
ghost use Rattle.posix_defs.specs.Asking.{AskedInTurn};
ghost use Rattle.cached_disk.specs.Lent.{Parts, Asked, IsCached, IsReordered};

/// Where all blocks that are asked for are cached nothing is read, and nothing but the order of use is other afterwards.
pub fn where_all_is_cached_nothing_is_read()
    ensures { (numbers : List ℕ) (before : Parts) (after : Parts)
        → AllByRecursion (IsCached before.cache) numbers → AskedInTurn Asked before numbers after
        → IsReordered before after }
{}

/// The block that was asked for last is cached.
pub fn what_was_asked_for_last_is_cached()
    ensures { (numbers : List ℕ) (last : ℕ) (before : Parts) (after : Parts)
        → AskedInTurn Asked before (numbers ++ last ∷ []) after → IsCached after.cache last }
{}
