//! Redo of pages, blocks, extents and inodes, on disks of a few pages; and of whole volumes.
#![tactic(auto)]

#[cfg(test)]
mod log;
#[cfg(test)]
mod maps;
#[cfg(test)]
mod pages;
#[cfg(test)]
mod volume;
