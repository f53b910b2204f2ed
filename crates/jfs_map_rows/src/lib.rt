//! What the block map answers beside what it is to answer: pages and calls worked out by hand from the format, and a plain slow map
//! beside the map of a volume, over many mixed calls.
#![tactic(auto)]

#[cfg(test)]
mod control;
#[cfg(test)]
mod groups;
#[cfg(test)]
mod map_control;
#[cfg(test)]
mod rows;
#[cfg(test)]
mod runs;
#[cfg(test)]
mod slow;
#[cfg(test)]
mod slow_calls;
#[cfg(test)]
mod slow_pages;
#[cfg(test)]
mod volume;
#[cfg(test)]
mod volume_rows;
