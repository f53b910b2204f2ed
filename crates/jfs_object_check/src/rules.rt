//! The rules of an inode.

ghost use Rattle.std.specs.Prelude.{◌≡◌, is_some};
ghost use Rattle.jfs_bits.specs.Broken.{first_broken};
ghost use Rattle.jfs_inode.specs.Rules.{rows};

use jfs_inode::Dinode;

/// Whether an inode breaks one of its rules at the place of inode `n`: it has its number, a known type, and 65,535 links at most.
#[tactic(auto, unfolding(jfs_inode::specs::Rules::rows))]
pub(crate) fn breaks_rule(inode: &Dinode, n: u32) -> bool
    ensures { result ≡ is_some (first_broken (rows inode.now n)) }
{
    let number = inode.number;
    let kind = inode.mode & Dinode::TYPE;
    let links = inode.nlink;
    number != n || !Dinode::TYPES.contains(&kind) || links > 65535
}
