//! Mounted volumes, in memory, of volumes that were formatted: the maps that a mount finds, what it writes and refuses, and what calls on the volume do where nothing fails, and where one call of a
//! part of the disk does. Values are worked out by hand from the layout.
#![tactic(auto)]

#[cfg(test)]
mod begins;
#[cfg(test)]
mod calls;
#[cfg(test)]
mod made;
#[cfg(test)]
mod maps;
#[cfg(test)]
mod mounts;
#[cfg(test)]
mod volume;
