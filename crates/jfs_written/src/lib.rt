//! What a file's extents are once a range of its blocks is written.
#![tactic(auto)]

mod law;
mod parts;
mod range;

pub use law::{
    cutting_shares_blocks, range_adds_few, range_is_cut_at_borders, range_is_cut_to_ranges,
    range_is_written_block_by_block, range_is_written_side_by_side, range_keeps_the_order,
    writing_shares_blocks,
};
pub use range::written;
