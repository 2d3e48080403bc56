//! How a command ends, and the number with which the program exits.

ghost use Rattle.std.specs.Prelude.{◌≡◌};
ghost use Rattle.command_reports.specs.Numbers.{status_number};

/// How a command ended.
#[derive(Clone, Copy, Debug, PartialEq, Eq)]
pub enum Status {
    /// All that was asked for was done.
    Done,
    /// The command's own no, as where an entry is no grant.
    No,
    /// The words are not understood.
    Words,
    /// The network's file has a fault.
    Network,
    /// The base file has a fault.
    Base,
    /// The train file has a fault.
    Trains,
    /// The journal is refused.
    Journal,
    /// A name could not be opened, or a file could not be read.
    Opening,
    /// A disk failed while it was begun or opened.
    DiskFault,
    /// A client's end is a fault of its source or its sink, a line that is
    /// too long, or a line too many.
    ClientEnd,
    /// The report, or what the command was to write, was not written whole.
    Report,
    /// Memory was wanted.
    Memory,
}

impl Status {
    /// The number with which the program exits.
    pub fn number(self) -> u8
        ensures { result ≡ status_number self }
    {
        match self {
            Status::Done => 0,
            Status::No => 1,
            Status::Words => 2,
            Status::Network => 3,
            Status::Base => 4,
            Status::Trains => 5,
            Status::Journal => 6,
            Status::Opening => 7,
            Status::DiskFault => 8,
            Status::ClientEnd => 9,
            Status::Report => 10,
            Status::Memory => 11,
        }
    }
}
