//! How a run of the program ends.

ghost use Rattle.std.specs.Prelude.{◌≡◌};
ghost use Rattle.jfs_command.specs.Status.{number_of, after_sink_fault};

use jfs_bits::Rule;

/// The status of a run. Each tells what was met.
#[derive(Clone, Copy, PartialEq, Eq, Debug)]
pub enum Status {
    /// The command did all of its work.
    Done,
    /// It did, and found so many faults in the image.
    Found { count: u32 },
    /// The words leave the grammar at this word, counted from 1.
    Usage { word: u32 },
    /// This page breaks that rule; the value is its field's.
    BadImage { page: u32, rule: Rule, value: u64 },
    /// This line of a client's script breaks that rule.
    BadScript { client: u32, line: u32, rule: Rule },
    /// A source of scripts failed.
    ScriptFault,
    /// The sink failed while the text of a command that had done its work was put.
    SinkFault,
    /// The disk failed.
    DiskFault,
    /// Memory ran out.
    OutOfMemory,
    /// The log is to be read and carries this label, which isn't this project's.
    ForeignLog { label: [u8; 16] },
    /// The log is to be read and breaks that rule at this address.
    BadLog { address: u32, rule: Rule },
    /// There are too many scripts, or lines or bytes of one.
    TooMuch { count: u32 },
    /// A volume can't have so many pages.
    BadSize { pages: u32 },
}

/// What may stop a command on its way.
#[derive(Clone, Copy, PartialEq, Eq, Debug)]
pub enum Stop {
    /// A source of scripts failed.
    Scripts,
    /// The disk failed.
    Disk,
    /// Memory ran out.
    Memory,
}

impl Status {
    /// The exit status of the program.
    pub fn number(self) -> u8
        ensures { result ≡ number_of self }
    {
        match self {
            Status::Done => 0,
            Status::Found { .. } => 1,
            Status::Usage { .. } => 2,
            Status::BadImage { .. } => 3,
            Status::BadScript { .. } => 4,
            Status::ScriptFault => 5,
            Status::SinkFault => 6,
            Status::DiskFault => 7,
            Status::OutOfMemory => 8,
            Status::ForeignLog { .. } => 9,
            Status::BadLog { .. } => 10,
            Status::TooMuch { .. } => 11,
            Status::BadSize { .. } => 12,
        }
    }

    /// The status where the sink failed while this one's text was put: one that refuses or names a fault stays.
    pub fn after_sink_fault(self) -> Status
        ensures { result ≡ after_sink_fault self }
    {
        match self {
            Status::Done | Status::Found { .. } => Status::SinkFault,
            _ => self,
        }
    }
}
