//! The checker of a volume.
#![tactic(auto)]

mod checked;
mod checking;
mod conclude;
mod examine;
mod files;
mod fresh;
mod look;
mod maps;
mod metered;
mod whole;

pub use checked::{CheckError, Checked};
pub use checking::{check, check_view};
