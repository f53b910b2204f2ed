//! What holds of a mounted volume whose call is done.

ghost use Rattle.jfs_joined_held.specs.Called.{CalledLaw};

/// A call that is done is a run of changes that the core allows, where its transaction logs what matters and tells nothing of the fixed areas; and the volume is held then.
pub fn joined_calls_keep_volumes_held()
    ensures { CalledLaw }
{}
