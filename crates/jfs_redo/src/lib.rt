//! Redo of a volume by its log: the pages of the committed transactions, then both maps, then the superblock's state.
#![tactic(auto)]

mod error;
mod law;
mod log;
mod maps;
mod plan;
mod redoing;
mod state;

pub use error::{RedoError, Redone};
pub use law::{
    maps_stand_apart, redo_leaves_file_data, redo_leaves_other_pages, redone_pages_are_a_choice,
    redone_volumes_agree, stopped_redo_is_taken_up,
};
pub use redoing::redo;
