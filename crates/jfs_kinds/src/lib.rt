//! Of what kind the owner of a block is: what the log keeps safe, what is written in place, and what nothing writes in place.
#![tactic(auto)]

mod law;

pub use law::{
    blocks_have_one_owner, contents_have_owners, edits_leave_owners, logged_pages_give_images,
    logged_pages_give_objects, objects_give_owners, owners_stay_with_counts,
};
