//! Two turns that threads pass round, over one table of six atomic words and two slots. The volume lies in one slot and the log
//! side in the other. Whoever has a turn has the value, and knows what it stands for.
#![tactic(auto)]

mod both;
mod ends;
mod facts;
mod laws;
mod log_turn;
mod marking;
mod plays;
mod stands;
mod turns;
mod view;

pub use both::BothTurns;
pub use facts::{Based, EntryFact, PointsFact};
pub use laws::{
    at_most_one_holder, both_turns_agree, durable_count_is_the_log_sides, knowledge_grows,
    seen_is_a_prefix, sees_its_own_entries,
};
pub use log_turn::LogTurn;
pub use stands::{HasClient, Stands};
pub use turns::{Pass, Turns, VolumeTurn};
pub use view::{Held, View};
