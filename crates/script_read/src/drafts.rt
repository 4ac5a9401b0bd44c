//! A script that is being read: what is set so far, and the programs that have ended.

ghost use Rattle.std.specs.Prelude.{◌≡◌, Result, Ok, Err, IfErr, OnOk, OnErr};
ghost use Rattle.script_read.specs.Reading.{Sets};
ghost use Rattle.script_read.specs.Drafting as spec;

use crate::Setting;
use kabi_types::{
    Chooser, FaultKind, Memory, Name27, Policy, Program, Programs, Script, Statement, Statements,
};
use std::alloc::Global;
use std::marker::Model;

/// The heap in bytes, the disk in blocks and the events of a script that doesn't give them.
const DEFAULT_HEAP: u64 = 65536;

const DEFAULT_DISK: u32 = 64;

const DEFAULT_STEPS: u32 = 1000;

/// The most programs of a script.
const MOST_PROGRAMS: usize = 64;

/// What is set so far, and the programs that have ended.
#[derive(Drop)]
pub struct Draft {
    heap: Option<u64>,
    disk: Option<u32>,
    steps: Option<u32>,
    policy: Option<Policy>,
    chooser: Option<Chooser>,
    programs: Vec<Program>,
}

impl Model for Draft {
    ghost use Rattle.script_read.specs.Drafting.{Draft};

    ghost Value = { Draft };

    ghost view = { λ d. record { heap = d.heap; disk = d.disk; steps = d.steps; policy = d.policy; chooser = d.chooser; programs = d.programs.items } };
}

/// Gives a setting its value, which it may get once.
fn set_once<A: Drop>(slot: &mut Option<A>, said: A) -> Result<(), FaultKind>
    ensures { Sets result slot.new (spec.once slot.old said) }
{
    if slot.is_some() {
        return Err(FaultKind::TwiceDefined);
    }
    *slot = Some(said);
    Ok(())
}

impl Draft {
    /// Nothing is set, and no program has ended.
    pub fn new(alloc: Global) -> Draft
        ensures { result ≡ spec.nothing_set }
    {
        Draft {
            heap: None,
            disk: None,
            steps: None,
            policy: None,
            chooser: None,
            programs: Vec::new(alloc),
        }
    }

    /// What a line sets, unless it was set before.
    pub fn set(&mut self, setting: Setting) -> Result<(), FaultKind>
        ensures { Sets result self.new (spec.with_setting self.old setting) }
    {
        match setting {
            Setting::Heap(bytes) => set_once(&mut self.heap, bytes),
            Setting::Disk(blocks) => set_once(&mut self.disk, blocks),
            Setting::Steps(steps) => set_once(&mut self.steps, steps),
            Setting::Victims(policy) => set_once(&mut self.policy, policy),
            Setting::Choosing(chooser) => set_once(&mut self.chooser, chooser),
        }
    }

    /// Whether a program of this name has ended.
    pub fn has_program(&self, name: &[u8]) -> bool
        ensures { result ≡ spec.has_program name.now self.now.programs }
    {
        names_any(self.programs.as_slice(), name)
    }

    /// Whether a program of this name may begin: there are 64 at most, and no two of one name.
    pub fn may_begin(&self, name: &[u8]) -> Result<(), FaultKind>
        ensures { spec.may_begin self.now name.now ≡ result }
    {
        if self.programs.len() == MOST_PROGRAMS {
            return Err(FaultKind::OutOfRange);
        }
        if self.has_program(name) {
            return Err(FaultKind::TwiceDefined);
        }
        Ok(())
    }

    /// Adds a program that has ended.
    pub fn add_program(&mut self, name: Name27, body: Vec<Statement>) -> Result<(), Memory>
        ensures { OnOk result (self.new ≡ spec.with_program self.old name body.items) }
    {
        self.programs.push(Program {
            name,
            body: Statements::from_vec(body),
        })?;
        Ok(())
    }

    /// The script, with the defaults of what wasn't set.
    pub fn into_script(self) -> Script
        ensures { result ≡ spec.drafted_script self }
    {
        Script {
            heap: self.heap.unwrap_or(DEFAULT_HEAP),
            disk: self.disk.unwrap_or(DEFAULT_DISK),
            steps: self.steps.unwrap_or(DEFAULT_STEPS),
            policy: self.policy.unwrap_or(Policy::Heaviest),
            chooser: self.chooser.unwrap_or(Chooser::Plain),
            programs: Programs::from_vec(self.programs),
        }
    }
}

/// Whether one of the programs has this name.
fn names_any(programs: &[Program], name: &[u8]) -> bool
    ensures { result ≡ spec.has_program name.now programs.now }
{
    programs.iter().any(|program| program.name.items() == name)
}
