//! Tests of the top call, with the texts that users see, and of fields, sources and layouts below it.
#![tactic(auto)]

#[cfg(test)]
mod borders;
#[cfg(test)]
mod check;
#[cfg(test)]
mod clients;
#[cfg(test)]
mod drip;
#[cfg(test)]
mod faults;
#[cfg(test)]
mod fields;
#[cfg(test)]
mod format;
#[cfg(test)]
mod gates;
#[cfg(test)]
mod log;
#[cfg(test)]
mod redo;
#[cfg(test)]
mod refusals;
#[cfg(test)]
mod round;
#[cfg(test)]
mod run;
#[cfg(test)]
mod sources;
#[cfg(test)]
mod volume;
