//! Tests of the log's records and superblock, by bytes worked out by hand from the format.
#![tactic(auto)]

#[cfg(test)]
mod broken;
#[cfg(test)]
mod spelled;
#[cfg(test)]
mod superblock;
#[cfg(test)]
mod written;
