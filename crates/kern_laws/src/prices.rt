//! Laws of needs and bounds. Each is the contract of a function that does nothing.

ghost use Rattle.std.specs.Prelude.{◌≡◌, ℕ, ℤ, ◌+◌, ◌*◌, ◌≤◌, max, Bool, false, length, Some, None};
ghost use Rattle.kabi_types.specs.Arguments.{argument_fault, count_of};
ghost use Rattle.kabi_types.specs.Call.{kind_of};
ghost use Rattle.kabi_types.specs.Class.{size};
ghost use Rattle.kabi_types.specs.declared.calls.Call.{Call};
ghost use Rattle.kabi_types.specs.declared.calls.Call.TheVariants.{Write, Pwrite};
ghost use Rattle.kabi_types.specs.declared.classes.Class.TheVariants.{Block, Chunk};
ghost use Rattle.kabi_types.specs.declared.errnos.Errno.{Errno};
ghost use Rattle.posix_defs.specs.PriceList.{price_of};
ghost use Rattle.posix_defs.specs.Needs.{bound, cost, need_of, is_write, stored_bytes};
ghost use Rattle.kabi_types.specs.Counts.{need_bytes};
ghost use Rattle.posix_defs.specs.Sizes.{no_need};
ghost use Rattle.posix_defs.specs.declared.prices.Price.TheVariants.{Always};

/// A call with a wrong operand needs nothing.
pub fn a_wrong_operand_costs_nothing()
    ensures need { (call : Call) (errno : Errno) → argument_fault call ≡ Some errno → need_of call ≡ no_need }
    ensures bound { (call : Call) (errno : Errno) → argument_fault call ≡ Some errno → bound call ≡ 0 }
{}

/// The bound of every other call is what the price list says; where that is a plain number, this number.
pub fn a_bound_is_that_of_the_price_list()
    ensures listed { (call : Call) → argument_fault call ≡ None → bound call ≡ cost (price_of (kind_of call)) call }
    ensures plain { (call : Call) (bytes : ℕ) → argument_fault call ≡ None → price_of (kind_of call) ≡ Always bytes → bound call ≡ bytes }
{}

/// A bound is the sum of the need by class. A write needs its blocks or its chunks and never both, so its bound is the
/// greater of the two.
pub fn a_bound_is_the_sum_of_its_need()
    ensures sum { (call : Call) → is_write (kind_of call) ≡ false → bound call ≡ need_bytes (need_of call) }
    ensures write { (fd addr n : ℤ) (done : ℕ)
        → bound (Write fd addr n done) ≡ max ((need_of (Write fd addr n done)).block * size Block) ((need_of (Write fd addr n done)).chunk * size Chunk) }
    ensures pwrite { (fd addr n at : ℤ)
        → bound (Pwrite fd addr n at) ≡ max ((need_of (Pwrite fd addr n at)).block * size Block) ((need_of (Pwrite fd addr n at)).chunk * size Chunk) }
{}

/// No bound is above 39040 bytes: nine pages and two blocks.
pub fn no_bound_is_above_39040()
    ensures { (call : Call) → length (stored_bytes call) ≤ 64 → bound call ≤ 39040 }
{}

/// What is left of a write costs no more as it goes on, and two blocks once all is moved.
pub fn a_write_costs_less_as_it_goes_on()
    ensures falls { (fd addr n : ℤ) (done more : ℕ) → bound (Write fd addr n (done + more)) ≤ bound (Write fd addr n done) }
    ensures rest { (fd addr n : ℤ) (done : ℕ) → argument_fault (Write fd addr n done) ≡ None → count_of n ≤ done
        → bound (Write fd addr n done) ≡ 2176 }
{}
