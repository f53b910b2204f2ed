//! Volumes that mean the same, whatever stands on pages that aren't in use, or that lie in fixed areas.
#![tactic(auto)]

mod law;

pub use law::alike_volumes_mean_the_same;
