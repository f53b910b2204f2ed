//! Inodes that a call holds.

ghost use Rattle.std.specs.Prelude.{◌≡◌, ◌<◌, ℕ, Some, IfOk};
ghost use Rattle.jfs_disk.specs.Image.{page_of};
ghost use Rattle.jfs_imap.specs.Inodes.{home_of};
ghost use Rattle.jfs_way.specs.Answer.{Carries, Answers};
ghost use Rattle.jfs_way.specs.Way.{place_of, inode_at};
ghost use Rattle.jfs_way.specs.Walk.{IsHeld, IsShown};

use crate::answer::from_view;
use jfs_bits::Rule;
use jfs_imap::InodeMap;
use jfs_inode::{Dinode, read_dinode};
use jfs_ranges::PageView;
use jfs_reader::plain::Refusal;

/// An inode that breaks no rule, with its number and its page.
#[derive(Clone, Copy)]
pub struct Held {
    pub number: u32,
    pub page: u32,
    pub inode: Dinode,
}

/// Inode `n`, which a name of the directory names whose inode stands on page `above`. It is `Damaged` where the inode breaks a rule, at its page, and where it
/// has no page in the file system part, at page `above`.
pub fn load<V: PageView>(
    view: &mut V,
    inodes: &InodeMap,
    above: u32,
    n: u32,
) -> Result<Held, Refusal>
    ensures image { V.PageView.tells → V.PageView.image view.new ≡ V.PageView.image view.old }
    ensures count_of_blocks { V.PageView.block_count view.new ≡ V.PageView.block_count view.old }
    ensures device { V.PageView.device view.new ≡ V.PageView.device view.old }
    ensures fault { Carries (V.PageView.faults view.old) (V.PageView.faults view.new) result }
    ensures number { IfOk result (λ o. o.number ≡ n) }
    ensures held { IfOk result (IsHeld (V.PageView.block_count view.old) inodes.now) }
    ensures shown { V.PageView.tells → IfOk result (IsShown (page_of (V.PageView.image view.old))) }
    // It is what stands there, or the first rule that is broken there and its page, whatever else the volume holds.
    ensures meets { V.PageView.tells → Answers (inode_at (V.PageView.block_count view.old) (page_of (V.PageView.image view.old)) inodes.now above n) result }
{
    let page = match place_of(view.blocks(), inodes, n) {
        Some(page) => page,
        None => {
            return Err(Refusal::Damaged {
                page: above,
                rule: Rule::Fields,
            });
        }
    };
    match view.page(page) {
        Ok(bytes) => match read_dinode(bytes, n % 8, n) {
            Ok(inode) => Ok(Held {
                number: n,
                page,
                inode,
            }),
            Err(bad) => Err(Refusal::Damaged {
                page,
                rule: bad.rule,
            }),
        },
        Err(e) => Err(from_view(e)),
    }
}

/// The page of inode `n`; `None` exactly where its extent isn't there, or the page lies behind so many blocks.
fn place_of(blocks: u32, inodes: &InodeMap, n: u32) -> Option<u32>
    ensures place { result ≡ place_of blocks inodes.now n }
    ensures home { (p : ℕ) → result ≡ Some p → (home_of inodes.now n ≡ Some p) × (p < blocks) }
{
    match inodes.home(n) {
        Some(page) if page < u64::from(blocks) => Some(page as u32),
        _ => None,
    }
}
