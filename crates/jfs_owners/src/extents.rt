//! The inode extents.

ghost use Rattle.std.specs.Prelude.{◌≡◌};
ghost use Rattle.jfs_findings.specs.objects.specs.Owners.{extent_has, extents_have};
ghost use Rattle.jfs_owners.specs.Counts.{Adds};

use crate::owners::Owners;
use jfs_bits::Pxd;

impl Owners {
    /// Counts the blocks of inode extents, each told by its first block, where it is there.
    pub fn add_inode_extents(&mut self, places: &[Option<u32>])
        ensures { Adds (extents_have places.now) self.old self.new }
    {
        for place in places {
            self.add_extent(*place);
        }
    }

    #[tactic(auto, using(crate::proofs::Places::adds_place, crate::proofs::Places::adds_no_place))]
    /// Counts the four blocks of an inode extent, where it is there.
    fn add_extent(&mut self, place: Option<u32>)
        ensures { Adds (extent_has place) self.old self.new }
    {
        match place {
            Some(first) => self.add(Pxd {
                len: 4,
                addr: u64::from(first),
            }),
            None => {}
        }
    }
}
