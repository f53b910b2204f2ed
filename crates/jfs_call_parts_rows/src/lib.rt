//! Parts of the file calls, on a volume that was formatted: walks, what is told of an object, changes of a mode, names taken away, sizes, blocks for a write, and the steps of a rename.
#![tactic(auto)]

#[cfg(test)]
mod chmods;
#[cfg(test)]
mod looks;
#[cfg(test)]
mod removals;
#[cfg(test)]
mod renames;
#[cfg(test)]
mod sizes;
#[cfg(test)]
mod unlinks;
#[cfg(test)]
mod volume;
#[cfg(test)]
mod walks;
#[cfg(test)]
mod writes;
