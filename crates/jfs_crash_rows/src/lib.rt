//! Runs of scripts on volumes in memory: their entries, what is told, and the disk, by values worked out by hand. Volumes that runs left or that crashes ended are redone: a check finds nothing, and the
//! tree is that of a front of the script's lines.
#![tactic(auto)]

#[cfg(test)]
mod at_once;
#[cfg(test)]
mod crashes;
#[cfg(test)]
mod faults;
#[cfg(test)]
mod left;
#[cfg(test)]
mod runs;
#[cfg(test)]
mod same;
#[cfg(test)]
mod scripts;
#[cfg(test)]
mod stopped;
#[cfg(test)]
mod volume;
