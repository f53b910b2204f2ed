//! What scripts come from, what text goes to, and where tests may hold a thread.
#![tactic(auto)]

mod failing;
mod gate;
mod sink;
mod source;

pub use gate::{Gate, OpenGate, Place};
pub use sink::{MemSink, Sink, SinkError, SureSink};
pub use source::{IoFailed, MemSource, Source, SureSource};
