//! An empty directory goes. (POSIX: rmdir.)

ghost use Rattle.std.specs.Prelude.{◌≡◌, ◌≤◌, ◌<◌, ℕ, [], length, get_or, Err, IfOk, IfErr};
ghost use Rattle.jfs_disk.specs.Image.{page_of};
ghost use Rattle.jfs_dtree.specs.Spells.{root_node};
ghost use Rattle.jfs_loss.specs.meaning.specs.Readers.{root_of};
ghost use Rattle.jfs_plain.specs.Step.{rmdir};
ghost use Rattle.jfs_loss.specs.way.specs.Answer.{Carries, Answers};
ghost use Rattle.jfs_unlink.specs.Call.{IsBare, rmdir_of, Removes, StepsOn, FreesOnceOn};

use crate::ends::find_ends;
use crate::gone::drop_named;
use jfs_bits::Moment;
use jfs_dtpage::DtForm;
use jfs_dtree::{DirEntry, DtPages};
use jfs_imap::InodeMap;
use jfs_loss::reader::{has_names, root_in};
use jfs_loss::way::Held;
use jfs_name::Name;
use jfs_plain::Refusal;
use jfs_ranges::{PageView, Tx};
use jfs_tree::{PageForm, Way};
use std::alloc::Global;

/// The transaction that takes the last name of a path away, and the empty directory that it names: its attributes are freed, and the directory that held it has one
/// link less. `IntoItself` for the root; `NotDir`, or `NotEmpty` where a name is in it; `Damaged` at the first page that breaks a rule on the path, or at the
/// directory's own page where its root does; the pages stay as they are.
pub fn remove_directory<V: PageView>(
    alloc: Global,
    view: &mut V,
    inodes: &InodeMap,
    path: &[Name],
    now: Moment,
) -> Result<Tx, Refusal>
    requires names { (i : ℕ) → i < length path.now → length (get_or path.now i []) ≤ 255 }
    ensures image { V.PageView.tells → V.PageView.image view.new ≡ V.PageView.image view.old }
    ensures count_of_blocks { V.PageView.block_count view.new ≡ V.PageView.block_count view.old }
    ensures device { V.PageView.device view.new ≡ V.PageView.device view.old }
    ensures fault { Carries (V.PageView.faults view.old) (V.PageView.faults view.new) result }
    // On any volume the transaction takes the name and the directory; a refusal is that of the first cause.
    ensures takes { V.PageView.tells → IfOk result (Removes (V.PageView.block_count view.old) (page_of (V.PageView.image view.old)) inodes.now path.now now) }
    ensures meets { V.PageView.tells → IfErr result (λ why. Answers (rmdir_of (V.PageView.block_count view.old) (page_of (V.PageView.image view.old)) inodes.now path.now) (Err why)) }
    // On a consistent volume the transaction takes the plain step.
    ensures steps { V.PageView.tells → StepsOn (V.PageView.block_count view.old) (page_of (V.PageView.image view.old)) inodes.now (λ t. rmdir t path.now now) result }
    ensures once { V.PageView.tells → IfOk result (FreesOnceOn (V.PageView.block_count view.old) (page_of (V.PageView.image view.old)) inodes.now) }
{
    if path.is_empty() {
        return Err(Refusal::IntoItself);
    }
    let ends = match find_ends(view, inodes, path) {
        Ok(ends) => ends,
        Err(e) => return Err(e),
    };
    if !has_names(&ends.at.inode) {
        return Err(Refusal::NotDir);
    }
    match check_bare(view.blocks(), &ends.at) {
        Ok(()) => {}
        Err(e) => return Err(e),
    }
    let name = &path[path.len() - 1];
    let links = ends.dir.inode.nlink.saturating_sub(1);
    drop_named(alloc, view, &ends, name, links, now)
}

/// Whether the root of a directory has no name: else `NotEmpty`, or `Damaged` where it breaks a rule.
fn check_bare(blocks: u32, at: &Held) -> Result<(), Refusal>
    ensures { IsBare at.now (root_node blocks (root_of at.now.inode)) result }
{
    let top = DtPages {
        form: DtForm::Root,
        blocks,
    };
    let root = root_in(&at.inode);
    let first = DirEntry::new(&[], 0);
    match top.way(root, &first) {
        Ok(Way::Here) => {
            if top.is_bare(root) {
                Ok(())
            } else {
                Err(Refusal::NotEmpty)
            }
        }
        Ok(Way::Down { .. }) => Err(Refusal::NotEmpty),
        Err(rule) => Err(Refusal::Damaged {
            page: at.page,
            rule,
        }),
    }
}
