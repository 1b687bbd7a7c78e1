//! How a check ends.

ghost use Rattle.std.specs.Prelude.{◌≡◌};

use sk_base::ExitStatus;

/// The end of a command that reads a file and writes a text.
#[derive(Clone, Copy, Debug, PartialEq, Eq)]
pub enum CheckStatus {
    /// All was written.
    Done,
    /// The file is absent, too long, or breaks a rule.
    BadFile,
    /// The file couldn't be read.
    ReadFault,
    /// The output couldn't be written.
    WriteFault,
    /// Memory ran out.
    OutOfMemory,
}

impl CheckStatus {
    ghost use Rattle.sk_tools.specs.Check.{exit_of};

    /// What the program ends with.
    pub fn exit_status(self) -> ExitStatus
        ensures { result ≡ exit_of self }
    {
        match self {
            CheckStatus::Done => ExitStatus::Done,
            CheckStatus::BadFile => ExitStatus::BadFile,
            CheckStatus::ReadFault => ExitStatus::ReadFault,
            CheckStatus::WriteFault => ExitStatus::WriteFault,
            CheckStatus::OutOfMemory => ExitStatus::OutOfMemory,
        }
    }
}
