//! A name looked up in a directory.

ghost use Rattle.std.specs.Prelude.{◌≡◌, ◌<◌, ◌≤◌, ◌==◌, if◌then◌else◌, ℕ, List, length, IfOk, IfErr, Ok};
ghost use Rattle.std.specs.Option.{option_map};
ghost use Rattle.jfs_name.specs.declared.name.NameEntry.{NameEntry};
ghost use Rattle.jfs_name.specs.Directory.{named};
ghost use Rattle.jfs_disk.specs.Image.{page_of};
ghost use Rattle.jfs_dtree.specs.Spells.{root_node, page_nodes, spells_names, CarriesDt, FailsWhereBad, broken_for, found_for, TellsWay};
ghost use Rattle.jfs_dtree.specs.Errors.{handed_on};

use crate::entry::DirEntry;
use crate::error::DtError;
use crate::form::DtPages;
use jfs_dtpage::DtForm;
use jfs_name::Name;
use jfs_ranges::{PageView, ViewError};
use jfs_tree::{TreeError, find_entry};

#[tactic(auto, using(crate::specs::Laws::point))]
/// The inode that a name names in a directory whose root has these 288 bytes; `None` exactly where the directory doesn't have the name. It reads one
/// page a level, and names the first one that breaks a rule. What it finds is what the leaf at the end of the name's way has, whatever stands elsewhere.
pub fn find<V: PageView>(view: &mut V, root: &[u8], name: &Name) -> Result<Option<u32>, DtError>
    requires root { length root.now ≡ 288 }
    requires name { length name.now ≤ 255 }
    ensures image { V.PageView.tells → V.PageView.image view.new ≡ V.PageView.image view.old }
    ensures count_of_blocks { V.PageView.block_count view.new ≡ V.PageView.block_count view.old }
    ensures device { V.PageView.device view.new ≡ V.PageView.device view.old }
    ensures fault { CarriesDt (V.PageView.faults view.old) (V.PageView.faults view.new) result }
    ensures found { V.PageView.tells → IfOk result (λ found. (es : List NameEntry) →
        spells_names (V.PageView.block_count view.old) (page_of (V.PageView.image view.old)) root.now ≡ Ok es → found ≡ named name.now es) }
    ensures on_way { V.PageView.tells → IfOk result (λ found. found ≡ found_for (V.PageView.block_count view.old) (page_of (V.PageView.image view.old)) root.now name.now) }
    ensures bad { V.PageView.tells → IfErr result (λ e.
        FailsWhereBad (page_nodes (V.PageView.block_count view.old) (page_of (V.PageView.image view.old))) (root_node (V.PageView.block_count view.old) root.now) e) }
    ensures way { V.PageView.tells → TellsWay (broken_for (V.PageView.block_count view.old) (page_of (V.PageView.image view.old)) root.now name.now) result }
{
    let blocks = view.blocks();
    let top = DtPages {
        form: DtForm::Root,
        blocks,
    };
    let pages = DtPages {
        form: DtForm::Full,
        blocks,
    };
    let x = DirEntry::new(name.as_slice(), 0);
    match find_entry(&top, &pages, view, root, &x) {
        Ok(found) => Ok(inode_of(found)),
        Err(e) => Err(handed_on(e)),
    }
}

fn inode_of(found: Option<DirEntry>) -> Option<u32>
    ensures { result ≡ option_map (λ (e : NameEntry). e.inode) found }
{
    match found {
        Some(entry) => Some(entry.inode()),
        None => None,
    }
}

/// An error of the tree's pages, handed on.
pub(crate) fn handed_on(e: TreeError) -> DtError
    ensures { result ≡ handed_on e }
{
    match e {
        TreeError::View(e) => DtError::View(e),
        TreeError::Bad { page, rule } => DtError::Bad { page, rule },
        TreeError::Memory => DtError::View(ViewError::Memory),
    }
}
