//! What the words of the command line ask for.
ghost use Rattle.std.specs.Prelude.{◌≤◌, IfSome};

/// A heap of so many bytes, a path of so many components, and how often it is asked about.
#[derive(Clone, Copy)]
pub struct Plan {
    pub heap: u64,
    pub components: u32,
    pub rounds: u32,
}

/// What three words ask for; None where one is missing or is no number, or the heap or the path is out of its bounds.
pub fn plan_of(
    heap: Option<String>,
    components: Option<String>,
    rounds: Option<String>,
) -> Option<Plan>
    ensures { IfSome result
        (λ plan. (65536 ≤ plan.heap) × (plan.heap ≤ 8388608) × (plan.components ≤ 16)) }
{
    let heap = number_in(heap)?;
    let components = number_in(components)?;
    let rounds = number_in(rounds)?;
    if heap < 65536 || heap > 8388608 || components > 16 {
        return None;
    }
    Some(Plan {
        heap: u64::from(heap),
        components,
        rounds,
    })
}

/// The number that a word is.
fn number_in(word: Option<String>) -> Option<u32> {
    let word = word?;
    word.as_str().parse::<u32>().ok()
}
