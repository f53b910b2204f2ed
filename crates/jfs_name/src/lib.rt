//! Names of files, and paths as text.
#![tactic(auto)]

mod error;
mod name;
mod path;
mod unit;
mod write;

pub use error::PathError;
pub use name::{Name, NameEntry, NameList, Path};
pub use path::read_path;
pub use write::write_name;
