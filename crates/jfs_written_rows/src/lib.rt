//! Ranges that are written into lists of extents, by rows worked out by hand.
#![tactic(auto)]

#[cfg(test)]
mod ready;
#[cfg(test)]
mod rows;
