//! Tests of the records of entries, by rows worked out by hand from the format.
#![tactic(auto)]

#[cfg(test)]
mod row;
#[cfg(test)]
mod rows;
#[cfg(test)]
mod texts;
#[cfg(test)]
mod told;
