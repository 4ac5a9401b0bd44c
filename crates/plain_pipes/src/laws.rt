//! Laws of all pipes. Each is the contract of a function that does nothing.

ghost use Rattle.std.specs.Prelude.{◌≡◌, ℕ, Bool, List, Option};
ghost use Rattle.plain_pipes.specs.Held.{FrontsFollow, Held, fifo_at_in, fifo_in, fronts_in, opened_in, pipe_in, pipes_in, place_in};
ghost use Rattle.posix_defs.specs.Account.{fronts_after, pipe_lengths};
ghost use Rattle.posix_defs.specs.Calls.OnFiles.{fifo_at, fifo_pipe, fifo_place, with_fifo};
ghost use Rattle.posix_defs.specs.Files.State.{Files, pipe_at};
ghost use Rattle.posix_defs.specs.Pipe.{with_end};

/// Fronts that follow are those of the account.
pub fn fronts_that_follow_are_the_accounts()
    ensures { (old new : List (Option Held)) (before after : Files) → before.pipes ≡ pipes_in old → after.pipes ≡ pipes_in new → FrontsFollow old new
        → fronts_in new ≡ fronts_after (pipe_lengths before) (pipe_lengths after) (fronts_in old) }
{}

/// What is said of the pipe of a place and of that of a FIFO is said of files with these pipes.
pub fn pipes_are_those_of_files()
    ensures pipe { (held : List (Option Held)) (files : Files) (place : ℕ) → files.pipes ≡ pipes_in held → pipe_in held place ≡ pipe_at files place }
    ensures found { (held : List (Option Held)) (files : Files) (number : ℕ) → files.pipes ≡ pipes_in held
        → fifo_at_in held number ≡ fifo_at files number }
    ensures fifo { (held : List (Option Held)) (files : Files) (number : ℕ) → files.pipes ≡ pipes_in held → fifo_in held number ≡ fifo_pipe files number }
    ensures place { (held : List (Option Held)) (files : Files) (number : ℕ) → files.pipes ≡ pipes_in held
        → place_in held (fifo_at_in held number) ≡ fifo_place files (fifo_at files number) }
    ensures opened { (held : List (Option Held)) (files : Files) (number : ℕ) (writing : Bool) → files.pipes ≡ pipes_in held
        → opened_in held number writing (fifo_at_in held number) ≡ (with_fifo files (fifo_at files number) (with_end (fifo_pipe files number) writing)).pipes }
{}
