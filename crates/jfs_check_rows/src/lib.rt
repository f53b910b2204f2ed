//! What a check finds on images made by one change of a new volume, and by a few.
#![tactic(auto)]

#[cfg(test)]
mod clean;
#[cfg(test)]
mod counted;
#[cfg(test)]
mod hostile;
#[cfg(test)]
mod kinds;
#[cfg(test)]
mod made;
#[cfg(test)]
mod reads;
#[cfg(test)]
mod several;
#[cfg(test)]
mod trees;
