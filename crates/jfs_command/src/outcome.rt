//! What a command did, and how it ended.

ghost use Rattle.std.specs.Prelude.{◌≡◌, []};
ghost use Rattle.jfs_command.specs.Status.{status_of};

use crate::status::{Status, Stop};
use jfs_plain::Entry;
use std::alloc::Global;

/// How a command ended.
#[derive(Clone, Copy, PartialEq, Eq, Debug)]
pub enum End {
    /// It came to a status by itself: it did all of its work, or refused.
    Own(Status),
    /// It was stopped on the way.
    Stopped(Stop),
}

impl End {
    /// The status of the run, unless the sink fails.
    pub fn status(self) -> Status
        ensures { result ≡ status_of self }
    {
        match self {
            End::Own(status) => status,
            End::Stopped(Stop::Scripts) => Status::ScriptFault,
            End::Stopped(Stop::Disk) => Status::DiskFault,
            End::Stopped(Stop::Memory) => Status::OutOfMemory,
        }
    }
}

/// What a command did: how it ended, what it prints before the line of its status, its history, and the numbers of the
/// entries that were told durable.
#[derive(Drop)]
pub struct Outcome {
    pub end: End,
    pub text: Vec<u8>,
    pub history: Vec<Entry>,
    pub told: Vec<u64>,
}

impl Outcome {
    /// The outcome of a command without clients.
    pub fn new(alloc: Global, end: End, text: Vec<u8>) -> Outcome
        ensures end { result.end ≡ end }
        ensures text { result.text.items ≡ text.items }
        ensures history { result.history.items ≡ [] }
        ensures told { result.told.items ≡ [] }
    {
        Outcome {
            end,
            text,
            history: Vec::new(alloc),
            told: Vec::new(alloc),
        }
    }
}
