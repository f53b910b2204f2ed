//! Tests of generated scripts, by lines worked out beside the code, and of the line that sums them up, beside a plain file tree.
#![tactic(auto)]

#[cfg(test)]
mod lines;
#[cfg(test)]
mod summary;
