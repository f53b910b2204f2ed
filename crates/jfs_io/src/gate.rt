//! Places at which a test may hold the thread of a client.

use std::sync::Wait;
use std::thread::Threads;

/// Where a client stands.
#[derive(Clone, Copy, PartialEq, Eq, Debug)]
pub enum Place {
    /// Before a group is written, by a leader that holds the log turn alone.
    BeforeLogWrite,
    /// After the client's entry was appended and the volume turn was given.
    AfterAppend,
}

/// May hold a thread at a place. It changes nothing.
pub trait Gate {
    fn pause<R: Threads + Wait + Sync>(&self, rt: &R, place: Place, client: u32);
}

/// The gate of the program: it holds nobody.
#[derive(Clone, Copy, PartialEq, Eq, Debug)]
pub struct OpenGate;

impl Gate for OpenGate {
    fn pause<R: Threads + Wait + Sync>(&self, _rt: &R, _place: Place, _client: u32) {}
}
