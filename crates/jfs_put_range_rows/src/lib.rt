//! Ranges that are written into trees of extents: rows by hand, beside a plain list of blocks, and where they are refused.
#![tactic(auto)]

#[cfg(test)]
mod appended;
#[cfg(test)]
mod beside;
#[cfg(test)]
mod file;
#[cfg(test)]
mod hostile;
#[cfg(test)]
mod links;
#[cfg(test)]
mod mixed;
#[cfg(test)]
mod narrow;
#[cfg(test)]
mod plain;
#[cfg(test)]
mod ready;
#[cfg(test)]
mod refused;
#[cfg(test)]
mod rows;
