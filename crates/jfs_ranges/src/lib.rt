//! Edits of pages, transactions, and a view of a volume's pages.
#![tactic(auto)]

mod edit;
mod over;
mod put;
mod touched;
mod view;

pub use edit::{Edit, Tx};
pub use over::Over;
pub use put::{apply, apply_edit, touches};
pub use touched::PageRange;
pub use view::{PageView, ViewError};
