//! Pages of both maps, changed byte by byte: which changes are told, and which aren't compared.
#![tactic(auto)]

#[cfg(test)]
mod changed;
#[cfg(test)]
mod rows;
