//! Tests of clients that run at once.
#![tactic(auto)]

#[cfg(test)]
mod rows;
#[cfg(test)]
mod toy;
