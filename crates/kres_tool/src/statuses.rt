ghost use Rattle.std.specs.Prelude.{◌≡◌};
ghost use Rattle.kres_tool.specs.Status.{number_of, status_of};

use kabi_types::End;

/// How the program ends.
#[derive(Clone, Copy)]
pub enum Status {
    /// The run ended as its first process did, and the report is written.
    Finished,
    /// What was read is no script; one line says so.
    BadScript,
    /// The words aren't the program's; one line says which are.
    Usage,
    /// The run ended as its first process waited for heap that nothing can free.
    Starved,
    /// The run ended as all its processes slept.
    AllAsleep,
    /// The run ended as its events were used up.
    Spent,
    /// The source failed; nothing is written.
    ReadFault,
    /// The sink failed; what is written is the beginning of the text.
    WriteFault,
    /// The host had no memory left.
    Memory,
}

impl Status {
    /// The number that the program ends with.
    pub fn number(self) -> u8
        ensures { result ≡ number_of self }
    {
        match self {
            Status::Finished => 0,
            Status::BadScript => 1,
            Status::Usage => 2,
            Status::Starved => 3,
            Status::AllAsleep => 4,
            Status::Spent => 5,
            Status::ReadFault => 6,
            Status::WriteFault => 7,
            Status::Memory => 8,
        }
    }

    /// The status of a run that ended so.
    pub fn of(end: End) -> Status
        ensures { result ≡ status_of end }
    {
        match end {
            End::Finished => Status::Finished,
            End::Starved { .. } => Status::Starved,
            End::AllAsleep => Status::AllAsleep,
            End::Spent => Status::Spent,
        }
    }
}
