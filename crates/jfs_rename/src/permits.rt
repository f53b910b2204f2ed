//! Whether an object may go where it is to go.

ghost use Rattle.std.specs.Prelude.{◌≡◌, ◌==◌, false, IfErr};
ghost use Rattle.jfs_link.specs.way.specs.Answer.{is_open};
ghost use Rattle.jfs_unlink.specs.Call.{is_last_of_big};
ghost use Rattle.jfs_rename.specs.Permits.{free_check, bare_check, over_check, permitted};

use jfs_dtpage::DtForm;
use jfs_dtree::{DirEntry, DtPages};
use jfs_inode::Dinode;
use jfs_link::reader::{has_names, root_in};
use jfs_link::way::Held;
use jfs_plain::Refusal;
use jfs_rename_steps::Moving;
use jfs_tree::{PageForm, Way};

/// What a rename is asked for.
#[derive(Clone, Copy)]
pub enum Asked {
    /// Both names are the object's: nothing changes.
    Same,
    /// Nothing stands at the new name.
    Free(Moving),
    /// Another object stands there, which loses the name.
    Over(Moving, Held),
}

/// The greatest number of links.
const MOST_LINKS: u32 = 65_535;

/// What is asked for, where this stands at the new name in a file system part of so many blocks, and the new path leads through the object or not. The causes are those of `check_free` and
/// `check_over`.
pub fn permitted(
    blocks: u32,
    moving: &Moving,
    inside: bool,
    found: Option<Held>,
    limit: u64,
) -> Result<Asked, Refusal>
    ensures value { result ≡ permitted blocks limit moving.now inside found }
    ensures closed { IfErr result (λ why. is_open why ≡ false) }
{
    match found {
        None => match check_free(moving, inside) {
            Ok(()) => Ok(Asked::Free(*moving)),
            Err(e) => Err(e),
        },
        Some(there) => {
            if there.number == moving.object.number {
                return Ok(Asked::Same);
            }
            match check_over(blocks, &moving.object, &there, inside, limit) {
                Ok(()) => Ok(Asked::Over(*moving, there)),
                Err(e) => Err(e),
            }
        }
    }
}

/// Whether an object may go where nothing stands: `IntoItself` where a directory would come below itself; `TooManyLinks` where its new directory has 65,535.
fn check_free(moving: &Moving, inside: bool) -> Result<(), Refusal>
    ensures value { result ≡ free_check moving.now inside }
    ensures closed { IfErr result (λ why. is_open why ≡ false) }
{
    if !has_names(&moving.object.inode) {
        return Ok(());
    }
    if inside {
        return Err(Refusal::IntoItself);
    }
    let stays = moving.source.number == moving.target.number;
    if !stays && moving.target.inode.nlink >= MOST_LINKS {
        return Err(Refusal::TooManyLinks);
    }
    Ok(())
}

/// Whether an object may take the name of another: `IntoItself` where a directory would come below itself; `IsDir` and `NotDir` where one of both is a directory and the other isn't; `NotEmpty` where
/// the other has names; `FileTooBig` where it is a regular file that goes and is larger than `limit` bytes. A directory's root that breaks a rule is `Damaged` at its inode's page.
fn check_over(
    blocks: u32,
    object: &Held,
    there: &Held,
    inside: bool,
    limit: u64,
) -> Result<(), Refusal>
    ensures value { result ≡ over_check blocks limit object.now there.now inside }
    ensures closed { IfErr result (λ why. is_open why ≡ false) }
{
    if has_names(&object.inode) {
        if inside {
            return Err(Refusal::IntoItself);
        }
        if !has_names(&there.inode) {
            return Err(Refusal::NotDir);
        }
        return check_bare(blocks, there);
    }
    if has_names(&there.inode) {
        return Err(Refusal::IsDir);
    }
    if is_last_of_big(limit, &there.inode) {
        return Err(Refusal::FileTooBig);
    }
    Ok(())
}

/// Whether the root of a directory has no name: else `NotEmpty`, or `Damaged` where it breaks a rule.
fn check_bare(blocks: u32, there: &Held) -> Result<(), Refusal>
    ensures value { result ≡ bare_check blocks there.now }
    ensures closed { IfErr result (λ why. is_open why ≡ false) }
{
    let top = DtPages {
        form: DtForm::Root,
        blocks,
    };
    let root = root_in(&there.inode);
    let first = DirEntry::new(&[], 0);
    match top.way(root, &first) {
        Ok(Way::Here) => {
            if top.is_bare(root) {
                Ok(())
            } else {
                Err(Refusal::NotEmpty)
            }
        }
        Ok(Way::Down { .. }) => Err(Refusal::NotEmpty),
        Err(rule) => Err(Refusal::Damaged {
            page: there.page,
            rule,
        }),
    }
}

/// Whether a regular file has its last name and is larger than the limit.
fn is_last_of_big(limit: u64, d: &Dinode) -> bool
    ensures { result ≡ is_last_of_big limit d.now }
{
    d.mode & Dinode::TYPE == Dinode::REGULAR && d.nlink <= 1 && limit < d.size
}
