//! Tests of the page cache, beside a plain model.
#![tactic(auto)]

#[cfg(test)]
mod calls;
#[cfg(test)]
mod plain;
#[cfg(test)]
mod rows;
