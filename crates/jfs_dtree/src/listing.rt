//! All names of a directory.

ghost use Rattle.std.specs.Prelude.{◌≡◌, ◌∷◌, ◌++◌, [], length, IfOk, IfErr, OnOk, Ok};
ghost use Rattle.jfs_disk.specs.Image.{page_of};
ghost use Rattle.jfs_dtree.specs.Spells.{root_node, page_nodes, spells_names, CarriesDt, NamesFirstBroken};

use crate::entry::DirEntry;
use crate::error::DtError;
use crate::form::DtPages;
use crate::lookup::handed_on;
use jfs_dtpage::DtForm;
use jfs_name::{Name, NameEntry, NameList};
use jfs_ranges::PageView;
use jfs_tree::{Visitor, walk_tree};
use std::alloc::{AllocError, Global};

/// The names that a walk saw, in their order.
#[derive(Drop)]
struct Gathered {
    alloc: Global,
    names: NameList,
}

impl Visitor<DirEntry> for Gathered {
    ghost sees_page = { λ old n new. new ≡ old };

    ghost sees_entry = { λ old n x new. new.names ≡ old.names ++ x ∷ [] };

    fn page(&mut self, _n: u32) {}

    fn entry(&mut self, _n: u32, x: &DirEntry) -> Result<(), AllocError> {
        let entry = owned(self.alloc, x)?;
        self.names.push(entry)
    }
}

/// The entry with memory of its own.
fn owned(alloc: Global, x: &DirEntry) -> Result<NameEntry, AllocError>
    ensures { IfOk result (λ entry. entry ≡ x.now) }
{
    let mut name = Name::new(alloc);
    name.extend_from_slice(x.name())?;
    Ok(NameEntry {
        name,
        inode: x.inode(),
    })
}

/// The names of a directory whose root has these 288 bytes, in rising order, each with its inode: `Ok` exactly where the root spells a list, which is this
/// one; else the first broken rule, with its page. Each page is read once.
pub fn list<V: PageView>(alloc: Global, view: &mut V, root: &[u8]) -> Result<NameList, DtError>
    requires root { length root.now ≡ 288 }
    ensures image { V.PageView.tells → V.PageView.image view.new ≡ V.PageView.image view.old }
    ensures count_of_blocks { V.PageView.block_count view.new ≡ V.PageView.block_count view.old }
    ensures device { V.PageView.device view.new ≡ V.PageView.device view.old }
    ensures fault { CarriesDt (V.PageView.faults view.old) (V.PageView.faults view.new) result }
    ensures list { V.PageView.tells → IfOk result (λ es. spells_names (V.PageView.block_count view.old) (page_of (V.PageView.image view.old)) root.now ≡ Ok es) }
    ensures bad { V.PageView.tells → IfErr result (λ e.
        NamesFirstBroken (page_nodes (V.PageView.block_count view.old) (page_of (V.PageView.image view.old))) (root_node (V.PageView.block_count view.old) root.now) e) }
{
    let blocks = view.blocks();
    let top = DtPages {
        form: DtForm::Root,
        blocks,
    };
    let pages = DtPages {
        form: DtForm::Full,
        blocks,
    };
    let mut gathered = Gathered {
        alloc,
        names: NameList::new(alloc),
    };
    match walk_tree(&top, &pages, view, root, &mut gathered) {
        Ok(()) => Ok(gathered.names),
        Err(e) => Err(handed_on(e)),
    }
}
