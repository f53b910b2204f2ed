//! What the parts of a volume are once an entry with a transaction has joined: the volume after the call.
#![tactic(auto)]

mod law;

pub use law::{
    blocks_are_those_after, marks_make_the_map_after, pages_are_those_after,
    parts_are_the_volume_after, tested_transactions_free_behind,
};
