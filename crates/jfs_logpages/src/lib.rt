//! The log's ring of pages: groups of records written at its end, and the ring read as text.
#![tactic(auto)]

mod backwards;
mod chain;
mod error;
mod fault;
mod fresh;
mod group;
mod group_text;
mod last;
mod law;
mod log_side;
mod newest;
mod page;
mod place;
mod point;
mod reading;
mod ring;
mod ring_text;
mod text;

pub use error::RingError;
pub use fault::{LogFault, LogRefused};
pub use fresh::write_fresh;
pub use group_text::GroupText;
pub use law::{one_answer, positions_count, records_are_read};
pub use log_side::LogSide;
pub use place::address;
pub use ring::read_ring;
pub use ring_text::RingText;
