//! The top call: the words of a command, its work on a disk, its status and its text.
#![tactic(auto)]

mod check;
mod format;
mod gen_words;
mod generate;
mod law;
mod line;
mod log;
mod log_text;
mod outcome;
mod perform;
mod print;
mod printed;
mod redo;
mod run;
mod scripts;
mod show;
mod status;
mod superblock;
mod text;
mod top;
mod words;

pub use law::{check_says_one_thing, log_says_one_thing, redo_says_one_thing, run_says_one_thing};
pub use status::Status;
pub use top::{Ended, jfs_top, jfs_without_clients};
pub use words::{Paths, PathsError, Usage, has_clients, paths_of};
