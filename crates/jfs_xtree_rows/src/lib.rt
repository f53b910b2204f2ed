//! Extent trees by rows worked out by hand, on hostile pages, and with reads that fail.
#![tactic(auto)]

#[cfg(test)]
mod adding;
#[cfg(test)]
mod cut_hostile;
#[cfg(test)]
mod cut_reads;
#[cfg(test)]
mod cutting;
#[cfg(test)]
mod hostile;
#[cfg(test)]
mod levels;
#[cfg(test)]
mod links;
#[cfg(test)]
mod listed;
#[cfg(test)]
mod rack;
#[cfg(test)]
mod racks;
#[cfg(test)]
mod shelf;
#[cfg(test)]
mod steps;
#[cfg(test)]
mod trees;
#[cfg(test)]
mod volume;
