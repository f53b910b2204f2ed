//! Where maps agree, and what that says.

ghost use Rattle.jfs_agree.specs.Agree.{SoundLaw, NewLaw, OwnedLaw};

/// The maps of a sound volume agree, and so do those of a volume on which a check finds nothing.
pub fn sound_maps_agree()
    ensures { SoundLaw }
{}

/// The maps of a new volume agree.
pub fn new_maps_agree()
    ensures { NewLaw }
{}

/// Where maps agree, a block is in use exactly where it has an owner, and each block has one owner at most.
pub fn blocks_in_use_have_owners()
    ensures { OwnedLaw }
{}
