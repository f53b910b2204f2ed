//! What a volume shows to the core.

ghost use Rattle.jfs_recovery.specs.Face.{Face, IsFace};

/// A kind of volume, as the core asks for it: who owns a block, what an entry does to a page, and how the pages of the maps follow; with the laws that these functions keep.
pub trait VolumeFace {
    ghost face: { Face };

    ghost keeps_laws: { IsFace face };
}
