//! Tests of scripts, of calls on a plain tree and of the text of a history, by lines and limits worked out by hand.
#![tactic(auto)]

#[cfg(test)]
mod calls;
#[cfg(test)]
mod limits;
#[cfg(test)]
mod lines;
#[cfg(test)]
mod room;
#[cfg(test)]
mod scripts;
#[cfg(test)]
mod text;
#[cfg(test)]
mod tree;
