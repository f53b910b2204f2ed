//! Names as text, the slots of names, and pages of directory trees, by rows worked out by hand and beside a plain list.
#![tactic(auto)]

#[cfg(test)]
mod calls;
#[cfg(test)]
mod changes;
#[cfg(test)]
mod facts;
#[cfg(test)]
mod growing;
#[cfg(test)]
mod hostile;
#[cfg(test)]
mod leading;
#[cfg(test)]
mod leaves;
#[cfg(test)]
mod leftmost;
#[cfg(test)]
mod listing;
#[cfg(test)]
mod mixed;
#[cfg(test)]
mod names;
#[cfg(test)]
mod own_row;
#[cfg(test)]
mod pages;
#[cfg(test)]
mod parting;
#[cfg(test)]
mod refusals;
#[cfg(test)]
mod slots;
#[cfg(test)]
mod steps;
#[cfg(test)]
mod units;
#[cfg(test)]
mod volume;
#[cfg(test)]
mod way;
