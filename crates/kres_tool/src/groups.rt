//! Runs of groups: several scripts of one text, each with a heap, a tree and a policy of its own, under one whole.

ghost use Rattle.std.specs.Prelude.{◌≡◌, ◌<◌, ◌≤◌, IfOk};
ghost use Rattle.std.specs.List.{AllByRecursion};
ghost use Rattle.kabi_types.specs.declared.scripts.Policy.TheVariants.{Heaviest, Youngest};
ghost use Rattle.posix_defs.specs.ValidScript.{IsValid};
ghost use Rattle.group_heap.specs.Reports.{IsGroupReport};
ghost use Rattle.group_heap.specs.Runs.{IsAtStart, sections_of};
ghost use Rattle.kres_tool.specs.Groups.{AreFit, IsGroupsReadAs, IsReportOf, SaysGroups};
ghost use Rattle.kres_tool.specs.Run.{high, marks, stands};
ghost use Rattle.kres_tool.specs.Tool.{GroupsEnd, ListEnds, input, output};

use crate::reading::read_text;
use crate::statuses::Status;
use crate::text::Text as Taken;
use crate::tool::{put_bytes, tell_fault};
use call_run::Store;
use group_heap::{Group, GroupEnd, GroupFault, GroupList, report_groups, run_groups, split_groups};
use kabi_types::{Memory, Name27, Script, ScriptFault, Text};
use kern_core::Core;
use kio_ports::{Sink, Source};
use std::alloc::Global;
use std::sync::Wait;
use std::thread::Threads;
use thread_laws::a_tree_of_files_crosses_threads;
use victim_core::{Score, Scorer};

/// What came of reading a text of groups.
#[derive(Drop)]
pub enum Grouping {
    /// The groups that the text says.
    Groups(GroupList),
    /// Why the text says none.
    Bad(ScriptFault),
    /// The source failed.
    Broken,
}

/// Reads a text of groups from a source.
fn read_groups<S: Source>(alloc: Global, source: &mut S) -> Result<Grouping, Memory>
    ensures { IfOk result (λ it. IsGroupsReadAs it (S.left source.old) (S.left source.new) (S.faults source.old) (S.faults source.new)) }
{
    match read_text(alloc, source)? {
        Taken::Read(text) => understand(alloc, text.as_slice()),
        Taken::Fault => Ok(Grouping::Broken),
    }
}

/// What a text says.
fn understand(alloc: Global, text: &[u8]) -> Result<Grouping, Memory>
    ensures { IfOk result (SaysGroups text.now) }
{
    match split_groups(alloc, text) {
        Ok(list) => Ok(Grouping::Groups(list)),
        Err(GroupFault::Bad(fault)) => Ok(Grouping::Bad(fault)),
        Err(GroupFault::Memory) => Err(Memory),
    }
}

/// A group with a store of its own, which hasn't run.
fn boot_group<F: Scorer, G: Scorer>(
    alloc: Global,
    name: Name27,
    script: &Script,
    score: Score<F, G>,
) -> Result<Group<Store<F, G>>, Memory>
    requires { IsValid script.now }
    ensures name { IfOk result (λ group. group.name ≡ name) }
    ensures script { IfOk result (λ group. group.script ≡ script.now) }
    ensures start { IfOk result (IsAtStart stands (λ store. store.script)) }
{
    // The greatest is made last, since what is there is let go where memory is wanting.
    let own = script.copy(alloc)?;
    let store = Store::boot(alloc, script, score)?;
    let core = Core::boot(alloc, store, script.steps, script.heap)?;
    Ok(Group {
        name,
        script: own,
        core,
        seat: None,
        text: Text::from_vec(Vec::new(alloc)),
        outcome: GroupEnd::NotRun,
    })
}

/// All groups of a list, each with a store of its own that scores by copies of the two closures.
fn boot_groups<F: Scorer + Copy, G: Scorer + Copy>(
    alloc: Global,
    list: &GroupList,
    heaviest: F,
    youngest: G,
) -> Result<Vec<Group<Store<F, G>>>, Memory>
    requires by_weight { F.scores heaviest Heaviest }
    requires by_age { G.scores youngest Youngest }
    requires fit { AreFit list.now }
    ensures sections { IfOk result (λ groups. sections_of groups.items ≡ list.now.sections) }
    ensures start { IfOk result (λ groups. AllByRecursion (IsAtStart stands (λ store. store.script)) groups.items) }
{
    let mut groups = Vec::new(alloc);
    for place in 0..list.len() {
        let score = Score::new(heaviest, youngest);
        let group = boot_group(alloc, list.name(place), list.script(place), score)?;
        groups.push(group)?;
    }
    Ok(groups)
}

/// Runs groups by so many workers, and reports them.
fn report_ran<R: Threads + Wait + Sync, F: Scorer + Send, G: Scorer + Send>(
    rt: &R,
    alloc: Global,
    workers: u32,
    whole: u64,
    groups: &mut [Group<Store<F, G>>],
) -> Result<Text, Memory>
    requires least { 8192 ≤ whole }
    requires most { whole ≤ 8388608 }
    requires start { AllByRecursion (IsAtStart stands (λ store. store.script)) groups.old }
    ensures { IfOk result (IsGroupReport stands marks high whole (sections_of groups.old)) }
{
    a_tree_of_files_crosses_threads();
    run_groups(rt, alloc, groups, whole, workers)?;
    report_groups(alloc, groups)
}

/// Runs the groups of a list by so many workers, and reports them.
fn report_list<R: Threads + Wait + Sync, F: Scorer + Send + Copy, G: Scorer + Send + Copy>(
    rt: &R,
    alloc: Global,
    workers: u32,
    list: &GroupList,
    heaviest: F,
    youngest: G,
) -> Result<Text, Memory>
    requires by_weight { F.scores heaviest Heaviest }
    requires by_age { G.scores youngest Youngest }
    requires fit { AreFit list.now }
    ensures { IfOk result (IsReportOf list.now) }
{
    let mut groups = boot_groups(alloc, list, heaviest, youngest)?;
    report_ran(rt, alloc, workers, list.whole(), groups.as_mut_slice())
}

/// Runs the groups of a list, and writes their report.
fn answer_list<R: Threads + Wait + Sync, K: Sink, F: Scorer + Send + Copy, G: Scorer + Send + Copy>(
    rt: &R,
    alloc: Global,
    workers: u32,
    list: &GroupList,
    sink: &mut K,
    heaviest: F,
    youngest: G,
) -> Status
    requires by_weight { F.scores heaviest Heaviest }
    requires by_age { G.scores youngest Youngest }
    requires fit { AreFit list.now }
    ensures { ListEnds (output K.held K.faults K.put_gives sink.old sink.new) list.now result }
{
    let Ok(text) = report_list(rt, alloc, workers, list, heaviest, youngest) else {
        return Status::Memory;
    };
    match put_bytes(sink, text.items()) {
        Ok(()) => Status::Finished,
        Err(_) => Status::WriteFault,
    }
}

/// Reads a text of groups from the source, runs them by so many workers, and writes their report.
pub fn answer_groups<
    R: Threads + Wait + Sync,
    S: Source,
    K: Sink,
    F: Scorer + Send + Copy,
    G: Scorer + Send + Copy,
>(
    rt: &R,
    alloc: Global,
    workers: u32,
    source: &mut S,
    sink: &mut K,
    heaviest: F,
    youngest: G,
) -> Status
    requires by_weight { F.scores heaviest Heaviest }
    requires by_age { G.scores youngest Youngest }
    ensures { GroupsEnd (input S.left S.faults source.old source.new) (output K.held K.faults K.put_gives sink.old sink.new) result }
{
    match read_groups(alloc, source) {
        Ok(Grouping::Groups(list)) => {
            let status = answer_list(rt, alloc, workers, &list, sink, heaviest, youngest);
            drop(list);
            status
        }
        Ok(Grouping::Bad(fault)) => tell_fault(alloc, sink, fault),
        Ok(Grouping::Broken) => Status::ReadFault,
        Err(Memory) => Status::Memory,
    }
}
