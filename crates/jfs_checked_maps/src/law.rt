//! What holds of a volume whose maps agree.

ghost use Rattle.jfs_checked_maps.specs.Past.{PastLaw};

/// On a volume whose maps agree, as on one on which a check finds nothing, the bits of blocks past its end are set.
pub fn maps_that_agree_set_bits_past_the_end()
    ensures { PastLaw }
{}
