//! What a transaction logs of each page, and of blocks that keep their owners: laws for the parts that file calls are made of. It has no code: its laws are functions with empty bodies.
#![tactic(auto)]

mod law;

pub use law::{
    edits_of_objects_are_logged, edits_that_leave_a_page_have_no_line_of_it,
    inodes_and_directories_keep_kinds, inodes_are_logged, objects_and_their_trees_are_logged,
    order_of_parts_is_free, pages_are_logged, parts_are_logged_together, runs_leave_other_pages,
    stages_are_logged, transactions_keep_to_their_own_pages, tree_pages_are_told,
};
