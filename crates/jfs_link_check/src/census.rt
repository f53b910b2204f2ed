//! The names of directories, counted in one walk through each tree.

ghost use Rattle.std.specs.Prelude.{◌≡◌, ◌∷◌, [], true, IfOk, OnOk};
ghost use Rattle.jfs_disk.specs.Image.{page_of};
ghost use Rattle.jfs_ranges.specs.View.{CarriesCount};
ghost use Rattle.jfs_tree.specs.Call.{CarriesFault};
ghost use Rattle.jfs_dtree.specs.Node.{name_scale};
ghost use Rattle.jfs_object_check.specs.objects.specs.Objects.{has_names, names_of, listed, met};
ghost use Rattle.jfs_object_check.specs.meaning.specs.Readers.{readers};
ghost use Rattle.jfs_object_check.specs.owners.specs.Counts.{Adds, page_has};
ghost use Rattle.jfs_object_check.specs.owners.specs.Held.{names_held};
ghost use Rattle.jfs_object_check.specs.Steps.{EndsAs, IsSound};
ghost use Rattle.jfs_link_check.specs.Places.{places_in, places_with};
ghost use Rattle.jfs_link_check.specs.Notes.{Sees, NotesInode};

use crate::notes::NameNotes;
use jfs_dtpage::DtForm;
use jfs_dtree::{DirEntry, DtPages};
use jfs_inode::Dinode;
use jfs_object_check::owners::Owners;
use jfs_object_check::reader::{has_names, root_in};
use jfs_ranges::{PageView, ViewError};
use jfs_tree::{TreeError, Visitor, walk_tree};
use std::alloc::AllocError;

/// Who owns the blocks of a volume, and what is noted of its names: what is known once the trees of all directories were walked through.
#[derive(Drop)]
pub struct Census {
    pub owners: Owners,
    pub names: NameNotes,
}

impl Visitor<DirEntry> for Census {
    ghost sees_page = { λ old n new. Adds (page_has n) old.owners new.owners × (new.names ≡ old.names) };

    ghost sees_entry = { λ old n x new. (new.owners ≡ old.owners) × Sees (record { page = n; inode = x.inode } ∷ []) old.names new.names };

    fn page(&mut self, n: u32) {
        self.owners.add_page(n);
    }

    fn entry(&mut self, n: u32, x: &DirEntry) -> Result<(), AllocError> {
        self.names.see(n, x.inode())
    }
}

/// Walks through the names of a directory.
fn walk_names<V: PageView>(
    view: &mut V,
    inode: &Dinode,
    census: &mut Census,
) -> Result<(), TreeError>
    requires { has_names inode.now ≡ true }
    ensures image { V.PageView.tells → V.PageView.image view.new ≡ V.PageView.image view.old }
    ensures count_of_blocks { V.PageView.block_count view.new ≡ V.PageView.block_count view.old }
    ensures device { V.PageView.device view.new ≡ V.PageView.device view.old }
    ensures fault { CarriesFault (V.PageView.faults view.old) (V.PageView.faults view.new) result }
    ensures ends { V.PageView.tells → EndsAs name_scale (names_of (readers (V.PageView.block_count view.old)) (page_of (V.PageView.image view.old)) inode.now) result }
    ensures seen { V.PageView.tells → OnOk result (
        Adds (met (names_of (readers (V.PageView.block_count view.old)) (page_of (V.PageView.image view.old)) inode.now)) census.old.owners census.new.owners
        × Sees (places_in (names_of (readers (V.PageView.block_count view.old)) (page_of (V.PageView.image view.old)) inode.now)) census.old.names census.new.names) }
{
    let blocks = view.blocks();
    let top = DtPages {
        form: DtForm::Root,
        blocks,
    };
    let pages = DtPages {
        form: DtForm::Full,
        blocks,
    };
    walk_tree(&top, &pages, view, root_in(inode), census)
}

/// Counts the pages of a directory's tree, and its names, if the tree breaks no rule. One that broke none before and now breaks one, as a failing device may tell
/// it, is counted as far as it was walked through.
fn count_tree<V: PageView>(
    view: &mut V,
    inode: &Dinode,
    sound: bool,
    census: &mut Census,
) -> Result<(), ViewError>
    requires { has_names inode.now ≡ true }
    ensures image { V.PageView.tells → V.PageView.image view.new ≡ V.PageView.image view.old }
    ensures count_of_blocks { V.PageView.block_count view.new ≡ V.PageView.block_count view.old }
    ensures device { V.PageView.device view.new ≡ V.PageView.device view.old }
    ensures fault { CarriesCount (V.PageView.faults view.old) (V.PageView.faults view.new) result }
    ensures seen { V.PageView.tells → IsSound (listed name_scale (names_of (readers (V.PageView.block_count view.old)) (page_of (V.PageView.image view.old)) inode.now)) sound →
        OnOk result (
        Adds (names_held (names_of (readers (V.PageView.block_count view.old)) (page_of (V.PageView.image view.old)) inode.now)) census.old.owners census.new.owners
        × Sees (places_with (V.PageView.block_count view.old) (page_of (V.PageView.image view.old)) inode.now) census.old.names census.new.names) }
{
    if !sound {
        return Ok(());
    }
    match walk_names(view, inode, census) {
        Ok(()) => Ok(()),
        Err(TreeError::View(e)) => Err(e),
        Err(TreeError::Memory) => Err(ViewError::Memory),
        Err(TreeError::Bad { .. }) => Ok(()),
    }
}

/// Counts what the tree of inode `n` tells, which stands on page `at` and is in use, where it is a directory; `sound` says whether that tree breaks no rule. The
/// pages of the tree have an owner more; each name is counted for the inode that it leads to; and what is wrong is noted: each name that leads to no inode in use or
/// to a reserved one, and a link count that isn't two and one for each subdirectory. A tree that breaks a rule has neither pages nor names.
///
/// Inodes are given in rising number: the names are counted right where those of all inodes in use with lower numbers were counted before.
///
/// Each page of the tree is read once, and no list of names is made.
///
/// # Errors
///
/// A page could not be read, or memory ran out.
pub fn count_names<V: PageView>(
    view: &mut V,
    n: u32,
    at: u32,
    inode: &Dinode,
    sound: bool,
    census: &mut Census,
) -> Result<(), ViewError>
    ensures image { V.PageView.tells → V.PageView.image view.new ≡ V.PageView.image view.old }
    ensures count_of_blocks { V.PageView.block_count view.new ≡ V.PageView.block_count view.old }
    ensures device { V.PageView.device view.new ≡ V.PageView.device view.old }
    ensures fault { CarriesCount (V.PageView.faults view.old) (V.PageView.faults view.new) result }
    ensures held { V.PageView.tells → IsSound (listed name_scale (names_of (readers (V.PageView.block_count view.old)) (page_of (V.PageView.image view.old)) inode.now)) sound →
        IfOk result (λ it. Adds (names_held (names_of (readers (V.PageView.block_count view.old)) (page_of (V.PageView.image view.old)) inode.now)) census.old.owners census.new.owners) }
    ensures noted { V.PageView.tells → IsSound (listed name_scale (names_of (readers (V.PageView.block_count view.old)) (page_of (V.PageView.image view.old)) inode.now)) sound →
        IfOk result (λ it. NotesInode (V.PageView.block_count view.old) (page_of (V.PageView.image view.old)) n at inode.now census.old.names census.new.names) }
{
    if !has_names(inode) {
        return Ok(());
    }
    let links = inode.nlink;
    census.names.begin(n, at);
    count_tree(view, inode, sound, census)?;
    match census.names.judge_links(links) {
        Ok(()) => Ok(()),
        Err(_) => Err(ViewError::Memory),
    }
}
