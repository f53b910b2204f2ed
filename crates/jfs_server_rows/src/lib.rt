//! Runs of many clients of a server on volumes in memory, whose gates make them meet and whose disks fail: the replies are a plain file tree's, and what is told is found again by a redo.
#![tactic(auto)]

#[cfg(test)]
mod at_once;
#[cfg(test)]
mod faults;
#[cfg(test)]
mod gates;
#[cfg(test)]
mod held;
#[cfg(test)]
mod history;
#[cfg(test)]
mod scripts;
#[cfg(test)]
mod volume;
