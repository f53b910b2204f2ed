//! A file's list of extents, looked at as a whole.

ghost use Rattle.std.specs.Prelude.{◌≡◌, ◌<◌, ◌≤◌, ◌^◌, true, IfSome};
ghost use Rattle.jfs_data_steps.specs.xtree.specs.Node.{is_within, all_within};
ghost use Rattle.jfs_write_pages.specs.Spots.{hint_behind};

use jfs_bits::Xad;

/// Whether each extent has a length and lies within so many blocks of the volume.
pub fn are_within(es: &[Xad], blocks: u32) -> bool
    ensures { result ≡ all_within blocks es.now }
{
    for e in es {
        if !is_within(e, blocks) {
            return false;
        }
    }
    true
}

fn is_within(e: &Xad, blocks: u32) -> bool
    ensures { result ≡ is_within blocks e.now }
{
    let blocks = u64::from(blocks);
    let addr = e.at.addr;
    let len = u64::from(e.at.len);
    len >= 1 && len <= blocks && addr <= blocks - len
}

/// The block behind the last extent, at which new blocks are to begin; 0 where there is none.
pub fn hint_behind(es: &[Xad], blocks: u32) -> u32
    requires { all_within blocks es.now ≡ true }
    ensures { result ≡ hint_behind es.now }
{
    let mut hint = 0;
    for e in es {
        hint = e.at.addr + u64::from(e.at.len);
    }
    hint as u32
}
