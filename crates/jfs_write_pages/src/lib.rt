//! What a write does to the blocks of a file: which of them it writes and what each holds then, and the extents that the file's tree gets.
#![tactic(auto)]

mod extents;
mod fill;
mod law;
mod page;
mod pages;
mod spot;
mod within;

pub use extents::extents_for;
pub use fill::{holes_in, placed};
pub use law::written_file_holds_the_bytes;
pub use page::{Change, push_page};
pub use pages::push_pages;
pub use spot::{Spot, push_between, spots_from};
pub use within::{are_within, hint_behind};

pub mod data_steps {
    //! Passed on from `jfs_data_steps`.

    pub use jfs_data_steps::DataList;
}
