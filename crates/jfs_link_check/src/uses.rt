//! What inode numbers stand for.

ghost use Rattle.std.specs.Prelude.{◌≡◌, ◌≢◌, ◌<◌, ◌≤◌, ◌*◌, ℕ, List, Option, length, IfOk};
ghost use Rattle.jfs_disk.specs.Image.{page_of};
ghost use Rattle.jfs_ranges.specs.View.{CarriesCount};
ghost use Rattle.jfs_object_check.specs.meaning.specs.Consistent.{is_reserved};
ghost use Rattle.jfs_each.specs.Each.{AllFit};
ghost use Rattle.jfs_link_check.specs.Uses.{use_of, use_at, is_directory, may_be_named, none_used, AreUses, SetsUse};

use jfs_dtree::parent;
use jfs_each::{EachInode, each_inode};
use jfs_inode::Dinode;
use jfs_object_check::reader::{has_names, root_in};
use jfs_ranges::{PageView, ViewError};
use std::alloc::{AllocError, Global};
use std::marker::Model;

/// What an inode number stands for.
#[derive(Clone, Copy, PartialEq, Eq, Debug)]
pub enum Use {
    /// An inode that isn't in use.
    Free,
    /// A directory, whose root names this parent.
    Directory { parent: u32 },
    /// Any other inode, which has this link count.
    Other { links: u32 },
}

/// What each inode number of a volume stands for: 8 bytes a number.
#[derive(Drop)]
pub struct Uses {
    uses: Vec<Use>,
}

impl Model for Uses {
    ghost use Rattle.std.specs.Prelude.{List};
    ghost use Rattle.jfs_link_check.specs.declared.uses.Use.{Use};

    ghost Value = { List Use };

    ghost view = { λ u. u.uses.items };
}

/// Inodes 0, 1 and 3 are kept, and have no name.
pub(crate) fn is_reserved(n: usize) -> bool
    ensures { result ≡ is_reserved n }
{
    n == 0 || n == 1 || n == 3
}

/// What an inode in use stands for.
fn use_of(inode: &Dinode) -> Use
    ensures { result ≡ use_of inode.now }
{
    if has_names(inode) {
        Use::Directory {
            parent: parent(root_in(inode)),
        }
    } else {
        Use::Other { links: inode.nlink }
    }
}

impl Uses {
    /// So many numbers, of which none is in use. `Err` is want of memory.
    fn none(alloc: Global, most: usize) -> Result<Uses, AllocError>
        ensures { IfOk result (λ uses. uses ≡ none_used most) }
    {
        let uses = vec![in alloc; Use::Free; most]?;
        Ok(Uses { uses })
    }

    /// How many numbers there are.
    pub(crate) fn len(&self) -> usize
        ensures { result ≡ length self.now }
    {
        self.uses.len()
    }

    /// What inode `n` stands for. Past the last number there is none in use.
    pub(crate) fn of(&self, n: usize) -> Use
        ensures { result ≡ use_at self.now n }
    {
        self.uses.get(n).copied().unwrap_or(Use::Free)
    }

    /// Whether inode `n` is a directory.
    pub(crate) fn is_directory(&self, n: usize) -> bool
        ensures { result ≡ is_directory (use_at self.now n) }
    {
        match self.of(n) {
            Use::Directory { .. } => true,
            Use::Free | Use::Other { .. } => false,
        }
    }

    /// Whether inode `n` is in use and may have a name.
    pub(crate) fn may_be_named(&self, n: usize) -> bool
        ensures { result ≡ may_be_named self.now n }
    {
        match self.of(n) {
            Use::Free => false,
            Use::Directory { .. } | Use::Other { .. } => !is_reserved(n),
        }
    }

    /// Sets what inode `n` stands for. Past the last number nothing is kept.
    fn set(&mut self, n: usize, is: Use)
        ensures { SetsUse n is self.old self.new }
    {
        if n < self.uses.len() {
            self.uses[n] = is;
        }
    }
}

impl EachInode for Uses {
    ghost sees = { λ blocks image old n f new. SetsUse n (use_of f.inode) old new };

    fn inode<V: PageView>(
        &mut self,
        _view: &mut V,
        n: u32,
        _page: u32,
        inode: &Dinode,
    ) -> Result<(), ViewError> {
        self.set(n as usize, use_of(inode));
        Ok(())
    }
}

/// What each inode number of a volume stands for, where inode extents begin at these places. Each inode page is read once.
///
/// # Errors
///
/// A page could not be read, or memory ran out.
pub fn uses_of<V: PageView>(
    alloc: Global,
    view: &mut V,
    places: &[Option<u32>],
) -> Result<Uses, ViewError>
    requires fit { AllFit (V.PageView.block_count view.old) places.now }
    requires most { length places.now ≤ 128 * 65536 }
    ensures image { V.PageView.tells → V.PageView.image view.new ≡ V.PageView.image view.old }
    ensures count_of_blocks { V.PageView.block_count view.new ≡ V.PageView.block_count view.old }
    ensures device { V.PageView.device view.new ≡ V.PageView.device view.old }
    ensures fault { CarriesCount (V.PageView.faults view.old) (V.PageView.faults view.new) result }
    ensures uses { V.PageView.tells → IfOk result (AreUses (page_of (V.PageView.image view.old)) places.now) }
{
    let _blocks = view.blocks();
    let mut uses = match Uses::none(alloc, 32 * places.len()) {
        Ok(uses) => uses,
        Err(_) => return Err(ViewError::Memory),
    };
    each_inode(view, places, &mut uses)?;
    Ok(uses)
}
