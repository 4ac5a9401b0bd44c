ghost use Rattle.std.specs.Prelude.{◌≡◌, ℕ, ◌<◌, ◌↔◌, IsTrue};
ghost use Rattle.std.specs.Int.{bit_at};
ghost use Rattle.wait_graph.specs.Chains.{LeadsTo};

/// Whether a chain of one or more waits leads from one of 64 back to itself. Bit j of row i says that i waits for j.
pub fn circle(edges: &[u64; 64], from: u32) -> bool
    requires { from < 64 }
    ensures { IsTrue result ↔ LeadsTo edges.now from from }
{
    (reached_from(edges, from) >> from) & 1 == 1
}

/// From which of 64 a chain of one or more waits leads back to them, as bits.
pub fn circling(edges: &[u64; 64]) -> u64
    ensures { (i : ℕ) → i < 64 → (bit_at result i ≡ 1) ↔ LeadsTo edges.now i i }
{
    let mut circling = 0;
    for from in 0..64 {
        if circle(edges, from) {
            circling |= 1 << from;
        }
    }
    circling
}

/// Those to whom a chain of one or more waits leads from one of 64, as bits.
fn reached_from(edges: &[u64; 64], from: u32) -> u64
    requires { from < 64 }
    ensures { (j : ℕ) → (bit_at result j ≡ 1) ↔ LeadsTo edges.now from j }
{
    let mut reached = edges[from as usize];
    // Those whose own waits aren't followed yet: each step takes one out.
    let mut fresh = u64::MAX;
    'follow: while reached & fresh != 0 {
        let next = (reached & fresh).trailing_zeros();
        fresh &= !(1 << next);
        reached |= edges[next as usize];
    }
    reached
}
