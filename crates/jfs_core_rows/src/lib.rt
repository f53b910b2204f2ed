//! Tests of the crash core and of what a transaction does to a page.
#![tactic(auto)]

#[cfg(test)]
mod crashes;
#[cfg(test)]
mod edits;
#[cfg(test)]
mod example;
#[cfg(test)]
mod refusals;
#[cfg(test)]
mod runs;
#[cfg(test)]
mod views;
