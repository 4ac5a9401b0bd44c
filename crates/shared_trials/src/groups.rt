//! Texts of groups, and groups that run, each over a store of two processes. Reports are by hand from the prices: 3328 bytes to fork and
//! 3008 to open, 512 for a process, 1088 for a block; 640 live at boot, and 2176 in reserve.

ghost use Rattle.std.specs.Prelude.{◌≡◌, ◌≤◌, IfOk};
ghost use Rattle.std.specs.List.{AllByRecursion};
ghost use Rattle.kern_tasks.specs.View.{HasBooted};
ghost use Rattle.group_heap.specs.Runs.{IsAtStart};
ghost use Rattle.shared_trials.specs.Pair.{pair, pair_body};

use crate::beside::reserve;
use crate::pair::{Pair, at_boot};
use charge_words::Charge;
use group_heap::{
    Group, GroupEnd, GroupFault, GroupList, report_groups, run_groups, run_one, split_groups,
};
use kabi_types::{
    CallKind, Chooser, End, FaultKind, Memory, Name27, Operand, Operands, Policy, Program,
    Programs, Script, ScriptFault, Statement, Statements, Text, Texts,
};
use kern_core::Core;
use posix_defs::Turner;
use std::alloc::Global;
use std::sync::Wait;
use std::test::Fail;
use std::thread::Threads;

/// What the run of the two processes on 8192 bytes is told as.
const REPORT: &str = "1 p1 ask fork bound 3328 charged 2816
2 p1 admit fork bound 3328 charged 6144
3 p1 done fork = 2 charged 3328
4 p1 ask open bound 3008 charged 3328
5 p1 admit open bound 3008 charged 6336
6 p1 done open = ENOENT charged 4416
7 p1 ask exit bound 0 charged 4416
8 p1 admit exit bound 0 charged 4416
9 p1 ended exit 0 charged 3392
end finished events 9 charged 3392 peak 6336 reads 0
";

const WHOLE_REPORT: &str = "group left heap 8192
1 p1 ask fork bound 3328 charged 2816
2 p1 admit fork bound 3328 charged 6144
3 p1 done fork = 2 charged 3328
4 p1 ask open bound 3008 charged 3328
5 p1 admit open bound 3008 charged 6336
6 p1 done open = ENOENT charged 4416
7 p1 ask exit bound 0 charged 4416
8 p1 admit exit bound 0 charged 4416
9 p1 ended exit 0 charged 3392
end finished events 9 charged 3392 peak 6336 reads 0
group middle refused heap 8193
group right heap 8192
1 p1 ask fork bound 3328 charged 2816
2 p1 admit fork bound 3328 charged 6144
3 p1 done fork = 2 charged 3328
4 p1 ask open bound 3008 charged 3328
5 p1 admit open bound 3008 charged 6336
6 p1 done open = ENOENT charged 4416
7 p1 ask exit bound 0 charged 4416
8 p1 admit exit bound 0 charged 4416
9 p1 ended exit 0 charged 3392
end finished events 9 charged 3392 peak 6336 reads 0
end groups 3 refused 1
";

/// The two statements of the program.
fn body(alloc: Global) -> Result<Statements, Memory>
    ensures { IfOk result (λ said. said ≡ pair_body) }
{
    let mut body = Vec::new(alloc);
    body.push(Statement::Invoke {
        kind: CallKind::Fork,
        operands: Operands::from_vec(Vec::new(alloc)),
        texts: Texts::from_vec(Vec::new(alloc)),
        first: None,
        second: None,
    })?;
    let mut texts = Vec::new(alloc);
    texts.push(Text::from_vec(b"/d".to_vec(alloc)?))?;
    body.push(Statement::Invoke {
        kind: CallKind::OpenFile,
        operands: Operands::from_vec([Operand::Number(0)].to_vec(alloc)?),
        texts: Texts::from_vec(texts),
        first: None,
        second: None,
    })?;
    Ok(Statements::from_vec(body))
}

/// The script of the two processes, on so much heap.
fn script(alloc: Global, heap: u64) -> Result<Script, Memory>
    ensures { IfOk result (λ script. script ≡ pair heap) }
{
    let name = Name27::of(b"init").unwrap();
    let body = body(alloc)?;
    let mut programs = Vec::new(alloc);
    programs.push(Program { name, body })?;
    Ok(Script {
        heap,
        disk: 64,
        steps: 1000,
        policy: Policy::Heaviest,
        chooser: Chooser::Plain,
        programs: Programs::from_vec(programs),
    })
}

/// A group of the two processes on so much heap.
fn group(alloc: Global, name: Name27, heap: u64) -> Result<Group<Pair>, Memory>
    requires least { 8192 ≤ heap }
    requires most { heap ≤ 8388608 }
    ensures { IfOk result (IsAtStart ⟦<Pair as Turner>⟧.stands ⟦<Pair as Turner>⟧.script) }
{
    let script = script(alloc, heap)?;
    let core = Core::boot(alloc, at_boot(heap), script.steps, heap)?;
    Ok(Group {
        name,
        script,
        core,
        seat: None,
        text: Text::from_vec(Vec::new(alloc)),
        outcome: GroupEnd::NotRun,
    })
}

/// Three groups, of which the one in the middle has a byte more of heap than the others.
fn three(alloc: Global) -> Result<Vec<Group<Pair>>, Memory>
    ensures { IfOk result (λ groups. AllByRecursion (IsAtStart ⟦<Pair as Turner>⟧.stands ⟦<Pair as Turner>⟧.script) groups.items) }
{
    let mut groups = Vec::new(alloc);
    groups.push(group(alloc, Name27::of(b"left").unwrap(), 8192)?)?;
    groups.push(group(alloc, Name27::of(b"middle").unwrap(), 8193)?)?;
    groups.push(group(alloc, Name27::of(b"right").unwrap(), 8192)?)?;
    Ok(groups)
}

/// Whether a group is as it has to be behind a run under a whole of 8192 bytes.
fn is_right(group: &Group<Pair>) -> bool {
    let so = match group.outcome {
        GroupEnd::NotRun => false,
        GroupEnd::Refused { heap } => heap == 8193 && group.script.heap == 8193,
        GroupEnd::Ran(end) => end == End::Finished && group.text.items() == REPORT.as_bytes(),
    };
    so && group.seat.is_none()
}

/// Whether three groups that so many workers run are as they have to be, and so is their report.
fn run_so<R: Threads + Wait + Sync>(rt: &R, alloc: Global, workers: u32) -> Result<bool, Memory> {
    let mut groups = three(alloc)?;
    run_groups(rt, alloc, groups.as_mut_slice(), 8192, workers)?;
    let right = groups.iter().all(|group| is_right(group));
    let text = report_groups(alloc, groups.as_slice())?;
    drop(groups);
    Ok(right && text.items() == WHOLE_REPORT.as_bytes())
}

#[test]
fn groups_run_or_are_refused_by_any_number_of_workers(rt: HostRuntime) -> Result<(), Fail> {
    for workers in [0, 1, 2, 3, 64] {
        assert!(rt; run_so(&rt, rt.alloc(), workers)?, "by {workers}");
    }
    Ok(())
}

#[test]
fn no_groups_are_run_too(rt: HostRuntime) -> Result<(), Fail> {
    let mut groups: Vec<Group<Pair>> = Vec::new(rt.alloc());
    run_groups(&rt, rt.alloc(), groups.as_mut_slice(), 8192, 2)?;
    let text = report_groups(rt.alloc(), groups.as_slice())?;
    assert!(rt; text.items() == b"end groups 0 refused 0\n".as_slice());
    Ok(())
}

/// Runs one group's core while a seat holds its heap; how it ended, and the text.
fn run_held(alloc: Global) -> Result<(End, Text), Fail> {
    let script = script(alloc, 8192)?;
    let mut core = Core::boot(alloc, at_boot(8192), script.steps, 8192)?;
    let (charge, mut boot) = Charge::boot(alloc, 11008)?;
    let mut seat = charge.split(&mut boot);
    reserve(&charge, &mut seat, 8192)?;
    let ran = run_one(alloc, &mut core, &script, &seat)?;
    charge.give_back(&mut seat, 8192);
    charge.join(seat, &mut boot);
    Ok(ran)
}

#[test]
fn one_runs_while_its_heap_is_held(rt: HostRuntime) -> Result<(), Fail> {
    let (end, text) = run_held(rt.alloc())?;
    assert!(rt; end == End::Finished && text.items() == REPORT.as_bytes());
    Ok(())
}

const TEXT: &str =
    "# Two.\nwhole 9000\ngroup left\nheap 8192\nprogram init\nend\n\ngroup right\nheap 9001\nprogram init\nexit 3\nend\n";

/// Whether these are the groups of that text.
fn are_two(list: &GroupList) -> bool {
    list.whole() == 9000
        && list.len() == 2
        && list.name(0).items() == b"left".as_slice()
        && list.script(0).heap == 8192
        && list.name(1).items() == b"right".as_slice()
        && list.script(1).heap == 9001
}

#[test]
fn a_text_is_split_into_its_groups(rt: HostRuntime) -> Result<(), Fail> {
    let Ok(list) = split_groups(rt.alloc(), TEXT.as_bytes()) else {
        return Err("the text isn't read".into());
    };
    assert!(rt; are_two(&list));
    Ok(())
}

/// The line of a text's fault, and what is wrong there; none where the text is read, or there is no memory.
fn fault_of(alloc: Global, text: &[u8]) -> Option<ScriptFault> {
    match split_groups(alloc, text) {
        Err(GroupFault::Bad(fault)) => Some(fault),
        Err(GroupFault::Memory) | Ok(_) => None,
    }
}

#[test]
fn a_name_is_given_once(rt: HostRuntime) -> Result<(), Fail> {
    let text = b"whole 8192\ngroup a\nprogram init\nend\ngroup a\nprogram init\nend\n";
    let fault = fault_of(rt.alloc(), text);
    assert!(rt;
        matches!(
            fault,
            Some(ScriptFault {
                line: 5,
                what: FaultKind::TwiceDefined
            })
        )
    );
    Ok(())
}

/// Its first line is at fault too, but that isn't looked at.
#[test]
fn a_text_of_a_byte_too_many_is_too_long(rt: HostRuntime) -> Result<(), Fail> {
    let mut text = Vec::new(rt.alloc());
    for _ in 0..1048576 {
        text.push(b'x')?;
    }
    let unknown = fault_of(rt.alloc(), text.as_slice());
    assert!(rt;
        matches!(
            unknown,
            Some(ScriptFault {
                line: 1,
                what: FaultKind::UnknownWord
            })
        )
    );
    text.push(b'x')?;
    let long = fault_of(rt.alloc(), text.as_slice());
    assert!(rt;
        matches!(
            long,
            Some(ScriptFault {
                line: 0,
                what: FaultKind::TooLong
            })
        )
    );
    Ok(())
}
