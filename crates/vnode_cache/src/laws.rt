//! Laws of the cache of inodes, each the contract of a function that does nothing.
ghost use Rattle.std.specs.Prelude.{◌≡◌, ℕ, ◌+◌, ◌<◌, ◌≤◌, List, [], Option, None, Some, replicate};
ghost use Rattle.kabi_types.specs.declared.inodes.Inode.{Inode};
ghost use Rattle.kheap_slabs.specs.Objects.{object, count, put};
ghost use Rattle.kheap_slabs.specs.Purse.{Purse};
ghost use Rattle.kheap_slabs.specs.declared.objects.Vnode.{Vnode};
ghost use Rattle.kheap_slabs.specs.Heap.{Heap};
ghost use Rattle.kheap_slabs.specs.Paid.{IsPaid};
ghost use Rattle.vnode_cache.specs.Nodes.{Nodes, nodes, node_slot, cached_inode, KeepsNodes, TrueToTable, StaysHeld, StaysBut, AgreesElsewhere};
ghost use Rattle.vnode_cache.specs.Calls.{NodeFilled, AreSteps, taken_off, last_of};

/// A node stays cached, in its place in the heap, through any list of calls that take fewer pins
/// off it than it has. A call whose clause says that a node stays held takes none off.
pub fn a_held_node_stays()
    ensures stays { (number : ℕ) (first : List (Option Vnode))
        (steps : List (ℕ × List (Option Vnode))) (cache : Nodes) (slot : ℕ) (v : Vnode)
        → AreSteps number first steps → object first slot ≡ Some v → v.number ≡ number
        → taken_off steps < v.pins → KeepsNodes (last_of first steps) cache
        → (node_slot cache number ≡ Some slot)
        × (w : Vnode) × (object (last_of first steps) slot ≡ Some w) × (w.number ≡ number)
        × (v.pins ≤ w.pins + taken_off steps) }
    ensures none { (number : ℕ) (old : List (Option Vnode)) (new : List (Option Vnode))
        → StaysHeld number old new → StaysBut 0 number old new }
{}

/// A cache that was just booted answers None, whatever it has room for, and keeps just the Vnodes of
/// a heap that was.
pub fn nothing_is_cached_at_boot()
    ensures none { (objects : List (Option Vnode)) (capacity : ℕ) (number : ℕ)
        → cached_inode objects (nodes [] capacity 0) number ≡ None }
    ensures keeps { (limit : ℕ) (capacity : ℕ)
        → KeepsNodes (replicate limit None) (nodes [] capacity 0) }
{}

/// To read an inode that is cached is to read the one that the table of nodes has.
pub fn reading_a_cache_is_reading_the_table()
    ensures { (table : ℕ → Option Inode) (objects : List (Option Vnode)) (cache : Nodes)
        (number : ℕ) (inode : Inode)
        → TrueToTable table objects → KeepsNodes objects cache
        → cached_inode objects cache number ≡ Some inode → table number ≡ Some inode }
{}

/// A cache stays true where a node's inode is filled, where one node gets another inode and the
/// cache is told, or has it not, and where a node is held once more or less.
pub fn a_cache_stays_true()
    ensures filled { (table : ℕ → Option Inode) (made : Vnode) (old : Heap) (new : Heap)
        (before : Purse) (after : Purse) (had : Nodes) (has : Nodes)
        → TrueToTable table old.vnodes → table made.number ≡ Some made.inode
        → NodeFilled made old new before after had has → TrueToTable table new.vnodes }
    ensures told { (table : ℕ → Option Inode) (next : ℕ → Option Inode)
        (objects : List (Option Vnode)) (cache : Nodes) (number : ℕ) (slot : ℕ) (was : Vnode)
        (inode : Inode)
        → TrueToTable table objects → KeepsNodes objects cache
        → AgreesElsewhere number table next
        → node_slot cache number ≡ Some slot → object objects slot ≡ Some was
        → next number ≡ Some inode
        → TrueToTable next (put objects slot (record was { inode = inode })) }
    ensures absent { (table : ℕ → Option Inode) (next : ℕ → Option Inode)
        (objects : List (Option Vnode)) (cache : Nodes) (number : ℕ)
        → TrueToTable table objects → KeepsNodes objects cache
        → AgreesElsewhere number table next → node_slot cache number ≡ None
        → TrueToTable next objects }
    ensures pinned { (table : ℕ → Option Inode) (objects : List (Option Vnode)) (slot : ℕ)
        (was : Vnode) (pins : ℕ)
        → TrueToTable table objects → object objects slot ≡ Some was
        → TrueToTable table (put objects slot (record was { pins = pins })) }
{}

/// A fill adds at most one Vnode, and none where the purse has none left.
pub fn a_fill_adds_at_most_one()
    ensures one { (made : Vnode) (old : Heap) (new : Heap) (before : Purse) (after : Purse)
        (had : Nodes) (has : Nodes)
        → NodeFilled made old new before after had has → IsPaid old before new after
        → count new.vnodes ≤ count old.vnodes + 1 }
    ensures none { (made : Vnode) (old : Heap) (new : Heap) (before : Purse) (after : Purse)
        (had : Nodes) (has : Nodes)
        → NodeFilled made old new before after had has → IsPaid old before new after
        → before.left.vnode ≡ 0 → count new.vnodes ≤ count old.vnodes }
{}
