ghost use Rattle.std.specs.Prelude.{◌≡◌};
ghost use Rattle.posix_defs.specs.Generator as generator;

/// The state of the generator that follows a state; before the first choice the state is the seed.
pub fn next_state(state: u32) -> u32
    ensures { result ≡ generator.next_state state }
{
    ((1103515245 * u64::from(state) + 12345) % 2147483648) as u32
}

/// The number that a state chooses by.
pub fn choice_of(state: u32) -> u32
    ensures { result ≡ generator.choice_of state }
{
    state / 65536
}
