//! File calls, their replies, and what each does to a plain file tree.
#![tactic(auto)]

mod asked;
mod build;
mod call;
mod content;
mod contents;
mod copy;
mod copy_call;
mod entries;
mod fresh;
mod law;
mod moves;
mod naming;
mod node;
mod plain;
mod refusal;
mod removal;
mod rename;
mod reply;
mod step;

pub use call::{Ack, Call, Entry, Line, Request};
pub use entries::Entries;
pub use law::{call_steps_are_plain, names_of_paths_are_short, refusal_leaves_tree};
pub use node::{Node, Times};
pub use plain::PlainTree;
pub use refusal::{Refusal, why_short};
pub use reply::{NodeKind, Reply, Stat};
