//! The file calls, on volumes in memory. By scripts: each call's transaction is done as an append does it, and the maps are written home. After each line the reply is that of the plain tree, the
//! volume has the plain tree's objects, and a check finds nothing. And one by one: replies, transactions, their notes and marks, and reads that fail, on a small volume made by hand.
#![tactic(auto)]

#[cfg(test)]
mod calls;
#[cfg(test)]
mod claims;
#[cfg(test)]
mod edges;
#[cfg(test)]
mod given;
#[cfg(test)]
mod marks;
#[cfg(test)]
mod room;
#[cfg(test)]
mod same;
#[cfg(test)]
mod scripts;
#[cfg(test)]
mod small;
#[cfg(test)]
mod told;
#[cfg(test)]
mod trees;
#[cfg(test)]
mod unread;
#[cfg(test)]
mod volume;
#[cfg(test)]
mod words;
