//! Runs of blocks worked out by hand: which blocks then have an owner, and which have two.
#![tactic(auto)]

#[cfg(test)]
mod counted;
#[cfg(test)]
mod rows;
