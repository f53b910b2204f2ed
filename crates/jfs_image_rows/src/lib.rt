//! The file trees and the rooms of images made by hand, and of a volume that was formatted; the sets of its maps.
#![tactic(auto)]

#[cfg(test)]
mod formatted;
#[cfg(test)]
mod made;
#[cfg(test)]
mod nodes;
#[cfg(test)]
mod none;
#[cfg(test)]
mod rooms;
#[cfg(test)]
mod sets;
#[cfg(test)]
mod words;
