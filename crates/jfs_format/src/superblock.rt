//! The superblock of a new volume.

ghost use Rattle.std.specs.Prelude.{◌≡◌, ℕ};
ghost use Rattle.jfs_super.specs.Super.{FitsSuper, super_of};
ghost use Rattle.jfs_format.specs.Layout.{IsLayout};
ghost use Rattle.jfs_format.specs.Superblock.{new_super, super_page};

use crate::volume::NewVolume;
use jfs_bits::{Pxd, SuperFlags};
use jfs_disk::Page;
use jfs_super::{Super, VolumeState, write_super};
use uuid::Uuid;

/// No run.
const NO_RUN: Pxd = Pxd { len: 0, addr: 0 };

/// The letters `JFS1`.
const MAGIC: u32 = 0x3153_464a;

/// Group commit, an inline log, made for Linux.
const FLAGS: SuperFlags = SuperFlags(0x1000_0900);

/// The superblock of a new volume.
fn new_super(v: NewVolume) -> Super
    requires { (pages : ℕ) × IsLayout pages v.layout }
    ensures value { result ≡ new_super v }
    ensures fits { FitsSuper result }
{
    let l = v.layout;
    let uuid = v.uuid;
    let label = v.label;
    Super {
        magic: MAGIC,
        version: 2,
        size: 8 * u64::from(l.blocks),
        bsize: 4096,
        l2bsize: 12,
        l2bfactor: 3,
        pbsize: 512,
        l2pbsize: 9,
        agsize: l.agsize,
        flag: FLAGS,
        state: VolumeState::CLEAN,
        compress: 0,
        ait2: Pxd {
            len: 4,
            addr: u64::from(20 + l.dmaps),
        },
        aim2: Pxd {
            len: 2,
            addr: u64::from(24 + l.dmaps),
        },
        logdev: 0,
        logserial: 0,
        logpxd: l.log,
        fsckpxd: l.work,
        time: v.moment,
        fsckloglen: 0,
        fscklog: 0,
        fpack: [0; 11],
        xsize: 0,
        xfsckpxd: NO_RUN,
        xlogpxd: NO_RUN,
        uuid: Uuid::from_bytes(uuid),
        label,
        loguuid: Uuid::from_bytes(uuid),
    }
}

/// Puts the page of the superblock of a new volume.
pub fn fill_super(page: &mut Page, v: NewVolume)
    requires { (pages : ℕ) × IsLayout pages v.layout }
    ensures page { page.new.0 ≡ super_page v }
    ensures reads { super_of page.new.0 ≡ new_super v }
{
    *page = Page::zeros();
    write_super(&new_super(v), page);
}
