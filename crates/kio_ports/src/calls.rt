ghost use Rattle.std.specs.Prelude.{◌≡◌, ◌↔◌, ◌≤◌, IsErr, OnOk, OnErr};
ghost use Rattle.kio_ports.specs.Calls.{first_call, after_call, after_fault, IsNextListed};

use crate::Failed;
use std::marker::Model;

/// The calls of a stream in memory: how many there were and failed, and the numbers of those that fail.
#[derive(Drop)]
pub struct Calls {
    fails: Vec<u64>,
    made: u64,
    faults: u64,
}

impl Model for Calls {
    ghost use Rattle.kio_ports.specs.Calls.{CallState};

    ghost Value = { CallState };

    ghost view = { λ calls. record { fails = calls.fails.items; made = calls.made; faults = calls.faults } };
}

impl Calls {
    /// No call was made. The numbers of those that fail begin with 1.
    pub fn new(fails: Vec<u64>) -> Self
        ensures { result ≡ first_call fails.items }
    {
        Calls {
            fails,
            made: 0,
            faults: 0,
        }
    }

    pub fn made(&self) -> u64
        ensures { result ≡ self.now.made }
    {
        self.made
    }

    pub fn faults(&self) -> u64
        ensures { result ≡ self.now.faults }
    {
        self.faults
    }

    /// Begins the next call, which ends here where its number is listed.
    pub fn begin(&mut self) -> Result<(), Failed>
        ensures listed { IsErr result ↔ IsNextListed self.old }
        ensures ok { OnOk result (self.new ≡ after_call self.old) }
        ensures err { OnErr result (self.new ≡ after_fault (after_call self.old)) }
        ensures never_falls { self.old.faults ≤ self.new.faults }
    {
        self.made = self.made.saturating_add(1);
        if self.fails.contains(&self.made) {
            return Err(self.fault());
        }
        Ok(())
    }

    /// Counts that the call has failed.
    pub fn fault(&mut self) -> Failed
        ensures counted { self.new ≡ after_fault self.old }
        ensures never_falls { self.old.faults ≤ self.new.faults }
    {
        self.faults = self.faults.saturating_add(1);
        Failed
    }
}
