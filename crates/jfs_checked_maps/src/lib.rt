//! What a check of a volume's maps gives to its mount. A law alone: there is no code that a mistake could be planted in.
#![tactic(auto)]

mod law;

pub use law::maps_that_agree_set_bits_past_the_end;
