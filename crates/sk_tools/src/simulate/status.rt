//! How a run of a scenario ends.

ghost use Rattle.std.specs.Prelude.{◌≡◌};

use sk_base::ExitStatus;

/// The end of a command that runs a scenario and writes the journals.
#[derive(Clone, Copy, Debug, PartialEq, Eq)]
pub enum SimulateStatus {
    /// All are finished, none was aborted, and all was written.
    Done,
    /// The file is absent, too long, or breaks a rule.
    BadFile,
    /// The file couldn't be read.
    ReadFault,
    /// The output couldn't be written.
    WriteFault,
    /// Memory ran out.
    OutOfMemory,
    /// All are finished, one was aborted, and all was written.
    Aborted,
    /// Not all are finished, and none can go on.
    Stalled,
}

impl SimulateStatus {
    ghost use Rattle.sk_tools.specs.Simulate.{exit_of};

    /// What the program ends with.
    pub fn exit_status(self) -> ExitStatus
        ensures { result ≡ exit_of self }
    {
        match self {
            SimulateStatus::Done => ExitStatus::Done,
            SimulateStatus::BadFile => ExitStatus::BadFile,
            SimulateStatus::ReadFault => ExitStatus::ReadFault,
            SimulateStatus::WriteFault => ExitStatus::WriteFault,
            SimulateStatus::OutOfMemory => ExitStatus::OutOfMemory,
            SimulateStatus::Aborted => ExitStatus::Aborted,
            SimulateStatus::Stalled => ExitStatus::Stalled,
        }
    }
}
