//! Scripts of clients, and the text of a history.
#![tactic(auto)]

mod error;
mod history;
mod law;
mod line;
mod number;
mod pairs;
mod print;
mod reader;
mod script;
mod target;
mod verb;
mod word;

pub use error::ScriptError;
pub use history::{write_done, write_history};
pub use law::scripts_mean_one_thing;
pub use print::write_entry;
pub use script::read_script;
