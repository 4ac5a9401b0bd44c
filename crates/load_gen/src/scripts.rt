ghost use Rattle.std.specs.Prelude.{◌≡◌, ◌≤◌, IfOk};
ghost use Rattle.posix_defs.specs.Generated.{body_to, rounds_to, generated};

use crate::rounds::round;
use crate::statements::{asks, exits, number};
use kabi_types::{
    CallKind, Chooser, Memory, Name27, Policy, Program, Programs, Script, Statement, Statements,
};
use posix_defs::next_state;
use std::alloc::Global;

/// The first statement, and `n` rounds behind it.
fn rounds_to(alloc: Global, n: u32) -> Result<Vec<Statement>, Memory>
    requires { n ≤ 1000 }
    ensures { IfOk result (λ said. said.items ≡ rounds_to n n) }
{
    let mut body = Vec::new(alloc);
    asks(alloc, &mut body, 1, CallKind::Mmap, &[number(65536)])?;
    let mut state = n;
    for i in 0..n {
        state = next_state(state);
        round(alloc, &mut body, i, state)?;
    }
    Ok(body)
}

fn body_to(alloc: Global, n: u32) -> Result<Statements, Memory>
    requires { n ≤ 1000 }
    ensures { IfOk result (λ body. body ≡ body_to n) }
{
    let mut body = rounds_to(alloc, n)?;
    exits(alloc, &mut body, 0)?;
    Ok(Statements::from_vec(body))
}

/// The script of `n` rounds, at most 1000: the greatest heap and disk, and one program `init` that makes and removes files,
/// fills pipes and forks, as the generator with seed `n` chooses. `Memory` comes where the host has no memory left.
pub fn generate(alloc: Global, n: u32) -> Result<Script, Memory>
    requires { n ≤ 1000 }
    ensures { IfOk result (λ script. script ≡ generated n) }
{
    let name = Name27::of(b"init").unwrap();
    let body = body_to(alloc, n)?;
    let mut programs = Vec::new(alloc);
    programs.push(Program { name, body })?;
    Ok(Script {
        heap: 8388608,
        disk: 4096,
        steps: 100000,
        policy: Policy::Heaviest,
        chooser: Chooser::Plain,
        programs: Programs::from_vec(programs),
    })
}
