//! Laws of many queues. Each is the contract of a function that does nothing.

ghost use Rattle.std.specs.Prelude.{◌≡◌, ℕ, ◌+◌, ◌*◌, ◌<◌, ◌≤◌, ◌++◌, [], ◌∷◌, List, Option, None, Some, length, slice_set};
ghost use Rattle.plain_bytes.specs.Many.{AreQueues, Fade, Follow, all_taken, front_in, fronts, length_in, lengths, queue_at, taken_in};
ghost use Rattle.plain_bytes.specs.Unread.{IsQueue, Unread, becomes, nothing};
ghost use Rattle.posix_defs.specs.Account.{chunks_taken};

/// The chunks of all queues are those that the account has, by lengths and fronts.
pub fn the_sum_is_that_of_the_account()
    ensures { (queues : List (Option Unread)) → all_taken queues ≡ chunks_taken (lengths queues) (fronts queues) }
{}

/// Where one queue becomes another by its change, all are queues, and the fronts are those of the account.
pub fn a_change_of_one_follows()
    ensures follow { (queues : List (Option Unread)) (place : ℕ) (queue now : Unread) → AreQueues queues → queue_at queues place ≡ Some queue
        → now.front ≡ (becomes queue now.bytes).front → Follow queues (slice_set queues place (Some now)) }
    ensures queues { (queues : List (Option Unread)) (place : ℕ) (now : Unread) → AreQueues queues → IsQueue now
        → AreQueues (slice_set queues place (Some now)) }
{}

/// The same where one queue goes, and where one without a byte comes behind the others.
pub fn goings_and_comings_follow()
    ensures gone { (queues : List (Option Unread)) (place : ℕ) → AreQueues queues → Fade queues (slice_set queues place None) }
    ensures gone_queues { (queues : List (Option Unread)) (place : ℕ) → AreQueues queues → AreQueues (slice_set queues place None) }
    ensures new { (queues : List (Option Unread)) → AreQueues queues → Fade queues (queues ++ Some nothing ∷ []) }
    ensures new_queues { (queues : List (Option Unread)) → AreQueues queues → AreQueues (queues ++ Some nothing ∷ []) }
{}

/// Queues that lose their bytes follow the account, however many changes that takes.
pub fn fading_follows()
    ensures follow { (old new : List (Option Unread)) → AreQueues old → Fade old new → Follow old new }
    ensures same { (queues : List (Option Unread)) → Fade queues queues }
    ensures further { (old middle new : List (Option Unread)) → Fade old middle → Fade middle new → Fade old new }
{}

/// What a change of one queue brings to the sum of chunks, and how large that sum is at most.
pub fn the_sum_changes_by_one()
    ensures change { (queues : List (Option Unread)) (place : ℕ) (now : Option Unread) → place < length queues
        → all_taken (slice_set queues place now) + taken_in (queue_at queues place) ≡ all_taken queues + taken_in now }
    ensures new { (queues : List (Option Unread)) → all_taken (queues ++ Some nothing ∷ []) ≡ all_taken queues }
    ensures most { (queues : List (Option Unread)) → AreQueues queues → all_taken queues ≤ 9 * length queues }
{}
