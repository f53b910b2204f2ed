//! The superblock's flag word.

ghost use Rattle.std.specs.Prelude.{⊤, ◌≡◌, [], ◌∷◌, codes};

use bitflags::{Flag, Flags, bitflag_items};

/// The superblock's flags; bits without a name are kept and not looked at. (JFS header, `jfs_filsys.h`.)
#[derive(Clone, Copy, PartialEq, Eq, Debug)]
pub struct SuperFlags(pub u32);

bitflag_items! {
    impl SuperFlags: u32 {
        const GROUPCOMMIT = 0x0000_0100;
        const LAZYCOMMIT = 0x0000_0200;
        const INLINELOG = 0x0000_0800;
        const DIR_INDEX = 0x0020_0000;
        const LINUX = 0x1000_0000;
        const OS2 = 0x4000_0000;
    }
}

impl Flags for SuperFlags {
    type Bits = u32;

    ghost exact = { ⊤ };

    ghost table = { (codes "GROUPCOMMIT", 0x100) ∷ (codes "LAZYCOMMIT", 0x200) ∷ (codes "INLINELOG", 0x800) ∷ (codes "DIR_INDEX", 0x200000) ∷ (codes "LINUX", 0x10000000) ∷ (codes "OS2", 0x40000000) ∷ [] };

    ghost set_of = { λ f. f.0 };

    fn flags<'a>() -> &'a [Flag<SuperFlags>] {
        SuperFlags::FLAGS
    }

    fn bits(&self) -> u32 {
        self.0
    }

    fn from_bits_retain(bits: u32) -> SuperFlags {
        SuperFlags(bits)
    }
}
