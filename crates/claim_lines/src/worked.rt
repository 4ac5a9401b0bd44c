//! Worked reports, computed: of each how many of its lines are good, from the first on. Each is the contract of a function
//! that does nothing.

ghost use Rattle.std.specs.Prelude.{◌≡◌};
ghost use Rattle.posix_defs.specs.FirstScript.{first_script};
ghost use Rattle.run_pasts.specs.Worked.{crowded_script, killed_script};
ghost use Rattle.claim_lines.specs.Worked.{crowded_lines, cut_short, first_lines, good_lines, killed_lines, longer, misnumbered, not_refused, other_pid, padded};

/// The lines of a process that asks for its pid and ends are good; with another pid, or where a refusal is told that none
/// was, they are not; nor is a line with another number, a byte more or less, or a number that is written otherwise.
pub fn first_lines_are_good()
    ensures all { good_lines first_script first_lines ≡ 2 }
    ensures pid { good_lines first_script other_pid ≡ 0 }
    ensures refused { good_lines first_script not_refused ≡ 1 }
    ensures number { good_lines first_script misnumbered ≡ 0 }
    ensures longer { good_lines first_script longer ≡ 0 }
    ensures padded { good_lines first_script padded ≡ 0 }
    ensures short { good_lines first_script cut_short ≡ 0 }
{}

/// So are those of children that are killed by their parent while they sleep, and of children that are killed for room.
pub fn lines_of_the_killed_are_good()
    ensures killed { good_lines killed_script killed_lines ≡ 17 }
    ensures crowded { good_lines crowded_script crowded_lines ≡ 13 }
{}
