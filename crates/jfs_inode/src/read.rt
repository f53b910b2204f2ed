//! Reading an inode, and its first broken rule.

ghost use Rattle.std.specs.Prelude.{◌≡◌, ◌<◌, [], ◌∷◌, None, Some, IfOk, IfErr, length};
ghost use Rattle.jfs_bits.specs.Broken.{first_broken, Answers};
ghost use Rattle.jfs_inode.specs.Inode.{inode_at, dinode_of, FitsDinode};
ghost use Rattle.jfs_inode.specs.Rules.{rows};

use crate::fields::Dinode;
use jfs_bits::{Rule, get_array, get_dxd, get_moment, get_pxd, get_u32, get_u64};
use jfs_disk::Page;

/// The first rule that an inode breaks, with the value of that rule's field.
#[derive(Clone, Copy, PartialEq, Eq, Debug)]
pub struct BadInode {
    pub rule: Rule,
    pub value: u64,
}

/// Reads the inode in slot 0 to 7 of a page; `number` is the number of the inode that has this place.
pub fn read_dinode(page: &Page, slot: u32, number: u32) -> Result<Dinode, BadInode>
    requires { slot < 8 }
    // It is accepted exactly where it breaks no rule, and then it is what the page spells.
    ensures accepted { IfOk result (λ d. (first_broken (rows d number) ≡ None) × (d ≡ dinode_of (inode_at page.now.0 slot))) }
    // Else the answer is the first rule that it breaks.
    ensures refused { IfErr result (λ bad. first_broken (rows (dinode_of (inode_at page.now.0 slot)) number) ≡ Some bad) }
    ensures fits { IfOk result FitsDinode }
{
    let d = inode_in(page, slot);
    check(&d, number)?;
    Ok(d)
}

/// The inode in slot 0 to 7 of a page as it stands, whatever rules it breaks.
pub fn inode_in(page: &Page, slot: u32) -> Dinode
    requires { slot < 8 }
    ensures value { result ≡ dinode_of (inode_at page.now.0 slot) }
    ensures fits { FitsDinode result }
{
    let at = 512 * slot as usize;
    spelled(&page.0[at..at + 512])
}

/// The fields as they stand.
fn spelled(bytes: &[u8]) -> Dinode
    requires { length bytes.now ≡ 512 }
    ensures value { result ≡ dinode_of bytes.now }
    ensures fits { FitsDinode result }
{
    Dinode {
        inostamp: get_u32(bytes, 0),
        fileset: get_u32(bytes, 4),
        number: get_u32(bytes, 8),
        generation: get_u32(bytes, 12),
        ixpxd: get_pxd(bytes, 16),
        size: get_u64(bytes, 24),
        nblocks: get_u64(bytes, 32),
        nlink: get_u32(bytes, 40),
        uid: get_u32(bytes, 44),
        gid: get_u32(bytes, 48),
        mode: get_u32(bytes, 52),
        atime: get_moment(bytes, 56),
        ctime: get_moment(bytes, 64),
        mtime: get_moment(bytes, 72),
        otime: get_moment(bytes, 80),
        acl: get_dxd(bytes, 88),
        ea: get_dxd(bytes, 104),
        next_index: get_u32(bytes, 120),
        acltype: get_u32(bytes, 124),
        rest: get_array(bytes, 128),
    }
}

/// The rules, in their order.
#[tactic(auto, unfolding(crate::specs::Rules::rows))]
fn check(d: &Dinode, number: u32) -> Result<(), BadInode>
    ensures { Answers result (rows d.now number) }
{
    let d = *d;
    require(d.number == number, Rule::Fields, d.number)?;
    require(
        Dinode::TYPES.contains(&(d.mode & Dinode::TYPE)),
        Rule::Kind,
        d.mode,
    )?;
    require(d.nlink <= 65535, Rule::Links, d.nlink)
}

/// The rule holds, or it is the one that is broken.
fn require(holds: bool, rule: Rule, value: u32) -> Result<(), BadInode>
    ensures { Answers result (record { answer = record { rule = rule; value = value }; holds = holds } ∷ []) }
{
    let value = u64::from(value);
    jfs_bits::require(holds, BadInode { rule, value })
}
