//! A new volume of 4,096 pages word by word, and devices that fail while one is made.
#![tactic(auto)]

#[cfg(test)]
mod faults;
#[cfg(test)]
mod pages;
#[cfg(test)]
mod words;
