//! Tests of the log's ring, by rows worked out by hand.
#![tactic(auto)]

#[cfg(test)]
mod broken;
#[cfg(test)]
mod failing;
#[cfg(test)]
mod groups;
#[cfg(test)]
mod logs;
#[cfg(test)]
mod plain;
#[cfg(test)]
mod rows;
#[cfg(test)]
mod tears;
#[cfg(test)]
mod trial;
#[cfg(test)]
mod wraps;
