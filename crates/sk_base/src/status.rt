//! What the program ends with.

ghost use Rattle.std.specs.Prelude.{◌≡◌};
ghost use Rattle.sk_base.specs.Statuses.{status_number};

/// How a command ended. The numbers stand here and nowhere else.
#[derive(Clone, Copy, Debug, PartialEq, Eq)]
pub enum ExitStatus {
    /// The input was read to its end, and the job is done.
    Done,
    /// A file is absent, too long or broken by a rule, or doesn't fit the command.
    BadFile,
    /// The words have no reading, or help was asked for.
    Usage,
    /// A file couldn't be read.
    ReadFault,
    /// An output or a link couldn't be written, or a link not read.
    WriteFault,
    /// Memory ran out.
    OutOfMemory,
    /// The run was aborted.
    Aborted,
    /// The net failed, before the run had what it needs of it.
    NetFault,
    /// The bytes that a link may bring, or the waits for it, are used up.
    Limit,
    /// The other side refused.
    Refused,
    /// Bytes that are no message, or a message out of order.
    BadInput,
    /// The input ended before it said that it would.
    EndedEarly,
    /// No participant can go on.
    Stalled,
    /// The journals break a law.
    Unlawful,
}

impl ExitStatus {
    /// The number that the program ends with.
    pub fn number(self) -> u8
        ensures { result ≡ status_number self }
    {
        match self {
            ExitStatus::Done => 0,
            ExitStatus::BadFile => 1,
            ExitStatus::Usage => 2,
            ExitStatus::ReadFault => 3,
            ExitStatus::WriteFault => 4,
            ExitStatus::OutOfMemory => 5,
            ExitStatus::Aborted => 6,
            ExitStatus::NetFault => 7,
            ExitStatus::Limit => 8,
            ExitStatus::Refused => 9,
            ExitStatus::BadInput => 10,
            ExitStatus::EndedEarly => 11,
            ExitStatus::Stalled => 12,
            ExitStatus::Unlawful => 13,
        }
    }
}
