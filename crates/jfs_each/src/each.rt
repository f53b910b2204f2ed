//! The inodes in use, one after the other.

ghost use Rattle.std.specs.Prelude.{◌≡◌, ◌≤◌, ◌<◌, ◌+◌, ◌*◌, ◌/◌, ◌%◌, ℕ, Some, IfOk, OnOk, length};
ghost use Rattle.jfs_disk.specs.Image.{Image, page_of};
ghost use Rattle.jfs_inode.specs.Inode.{FitsDinode};
ghost use Rattle.jfs_inode.specs.declared.fields.Dinode.{Dinode};
ghost use Rattle.jfs_objects.specs.Objects.{is_live};
ghost use Rattle.jfs_ranges.specs.View.{CarriesCount};
ghost use Rattle.jfs_objects.specs.Volume.{slot_of};
ghost use Rattle.jfs_each.specs.Each.{Found, live_in, found_at, Step, Visits, VisitsPlace, AllFit};

use jfs_disk::Page;
use jfs_inode::{Dinode, inode_in};
use jfs_ranges::{PageView, ViewError};

/// Sees the inodes in use of a volume, in rising number.
pub trait EachInode {
    /// The number of blocks of the file system part and its pages; the visitor, the number of an inode, the inode with its page, and the visitor afterwards.
    ghost sees: { ℕ → Image → Self → ℕ → Found → Self → Type 0 };

    /// Inode `n`, which stands on that page.
    fn inode<V: PageView>(
        &mut self,
        view: &mut V,
        n: u32,
        page: u32,
        inode: &Dinode,
    ) -> Result<(), ViewError>
        requires fits { FitsDinode inode.now }
        ensures image { V.PageView.tells → V.PageView.image view.new ≡ V.PageView.image view.old }
        ensures count_of_blocks { V.PageView.block_count view.new ≡ V.PageView.block_count view.old }
        ensures device { V.PageView.device view.new ≡ V.PageView.device view.old }
        ensures fault { CarriesCount (V.PageView.faults view.old) (V.PageView.faults view.new) result }
        ensures seen { V.PageView.tells → IfOk result (λ it.
            sees (V.PageView.block_count view.old) (V.PageView.image view.old) self.old n (record { page = page; inode = inode.now }) self.new) };
}

/// Whether inode `n` is in use: 0 to 3 always are, any other where it has a name.
fn is_live(n: u32, inode: &Dinode) -> bool
    ensures { result ≡ is_live n inode.now }
{
    let nlink = inode.nlink;
    n < 4 || nlink != 0
}

/// Shows the inodes of all extents; `places` has the first block of each extent, where it is there. Each of their pages is read once.
pub fn each_inode<V: PageView, W: EachInode>(
    view: &mut V,
    places: &[Option<u32>],
    visitor: &mut W,
) -> Result<(), ViewError>
    requires fit { AllFit (V.PageView.block_count view.old) places.now }
    requires most { length places.now ≤ 128 * 65536 }
    ensures image { V.PageView.tells → V.PageView.image view.new ≡ V.PageView.image view.old }
    ensures count_of_blocks { V.PageView.block_count view.new ≡ V.PageView.block_count view.old }
    ensures device { V.PageView.device view.new ≡ V.PageView.device view.old }
    ensures fault { CarriesCount (V.PageView.faults view.old) (V.PageView.faults view.new) result }
    ensures visits { V.PageView.tells → IfOk result (λ it. Visits (W.sees (V.PageView.block_count view.old) (V.PageView.image view.old))
        (found_at (page_of (V.PageView.image view.old)) places.now) 0 (32 * length places.now) visitor.old visitor.new) }
{
    let mut copy = Page::zeros();
    for e in 0..places.len() {
        each_in_place(view, e as u32, places[e], &mut copy, visitor)?;
    }
    Ok(())
}

/// The inodes of extent `e`, where it is there. `copy` is room for a page, whatever it holds.
fn each_in_place<V: PageView, W: EachInode>(
    view: &mut V,
    e: u32,
    place: Option<u32>,
    copy: &mut Page,
    visitor: &mut W,
) -> Result<(), ViewError>
    requires fits { (first : ℕ) → place ≡ Some first → first + 4 ≤ V.PageView.block_count view.old }
    requires most { e < 128 * 65536 }
    ensures image { V.PageView.tells → V.PageView.image view.new ≡ V.PageView.image view.old }
    ensures count_of_blocks { V.PageView.block_count view.new ≡ V.PageView.block_count view.old }
    ensures device { V.PageView.device view.new ≡ V.PageView.device view.old }
    ensures fault { CarriesCount (V.PageView.faults view.old) (V.PageView.faults view.new) result }
    ensures visits { V.PageView.tells → IfOk result (λ it. VisitsPlace (W.sees (V.PageView.block_count view.old) (V.PageView.image view.old))
        (page_of (V.PageView.image view.old)) e place visitor.old visitor.new) }
{
    match place {
        Some(first) => each_in_extent(view, e, first, copy, visitor),
        None => Ok(()),
    }
}

/// The 32 inodes of extent `e`, which begins at that block. `copy` is room for a page.
fn each_in_extent<V: PageView, W: EachInode>(
    view: &mut V,
    e: u32,
    first: u32,
    copy: &mut Page,
    visitor: &mut W,
) -> Result<(), ViewError>
    requires fits { first + 4 ≤ V.PageView.block_count view.old }
    requires most { e < 128 * 65536 }
    ensures image { V.PageView.tells → V.PageView.image view.new ≡ V.PageView.image view.old }
    ensures count_of_blocks { V.PageView.block_count view.new ≡ V.PageView.block_count view.old }
    ensures device { V.PageView.device view.new ≡ V.PageView.device view.old }
    ensures fault { CarriesCount (V.PageView.faults view.old) (V.PageView.faults view.new) result }
    ensures visits { V.PageView.tells → IfOk result (λ it. Visits (W.sees (V.PageView.block_count view.old) (V.PageView.image view.old))
        (λ n. live_in (page_of (V.PageView.image view.old)) n (Some (first + n % 32 / 8))) (32 * e) 32 visitor.old visitor.new) }
{
    let _blocks = view.blocks();
    for d in 0..4 {
        each_on_page(view, 32 * e + 8 * d, first + d, copy, visitor)?;
    }
    Ok(())
}

/// The eight inodes from `from` on, which stand on that page. It is copied, since what sees them reads other pages meanwhile.
fn each_on_page<V: PageView, W: EachInode>(
    view: &mut V,
    from: u32,
    page: u32,
    copy: &mut Page,
    visitor: &mut W,
) -> Result<(), ViewError>
    requires slots { from % 8 ≡ 0 }
    requires most { from < 32 * 128 * 65536 }
    requires within { page < V.PageView.block_count view.old }
    ensures image { V.PageView.tells → V.PageView.image view.new ≡ V.PageView.image view.old }
    ensures count_of_blocks { V.PageView.block_count view.new ≡ V.PageView.block_count view.old }
    ensures device { V.PageView.device view.new ≡ V.PageView.device view.old }
    ensures fault { CarriesCount (V.PageView.faults view.old) (V.PageView.faults view.new) result }
    ensures visits { V.PageView.tells → IfOk result (λ it. Visits (W.sees (V.PageView.block_count view.old) (V.PageView.image view.old))
        (λ n. live_in (page_of (V.PageView.image view.old)) n (Some page)) from 8 visitor.old visitor.new) }
{
    match copy_page(view, page, copy) {
        Ok(()) => each_slot(view, from, page, copy, visitor),
        Err(e) => Err(e),
    }
}

/// Copies a page over another one.
fn copy_page<V: PageView>(view: &mut V, page: u32, copy: &mut Page) -> Result<(), ViewError>
    requires within { page < V.PageView.block_count view.old }
    ensures image { V.PageView.tells → V.PageView.image view.new ≡ V.PageView.image view.old }
    ensures count_of_blocks { V.PageView.block_count view.new ≡ V.PageView.block_count view.old }
    ensures device { V.PageView.device view.new ≡ V.PageView.device view.old }
    ensures fault { CarriesCount (V.PageView.faults view.old) (V.PageView.faults view.new) result }
    ensures copy { V.PageView.tells → OnOk result (copy.new.0 ≡ page_of (V.PageView.image view.old) page) }
{
    match view.page(page) {
        Ok(bytes) => {
            copy.0.copy_from_slice(&bytes.0);
            Ok(())
        }
        Err(e) => Err(e),
    }
}

/// The eight inodes from `from` on, which stand on that page, whose bytes these are.
fn each_slot<V: PageView, W: EachInode>(
    view: &mut V,
    from: u32,
    page: u32,
    copy: &Page,
    visitor: &mut W,
) -> Result<(), ViewError>
    requires slots { from % 8 ≡ 0 }
    requires most { from < 32 * 128 * 65536 }
    requires copy { V.PageView.tells → copy.now.0 ≡ page_of (V.PageView.image view.old) page }
    ensures image { V.PageView.tells → V.PageView.image view.new ≡ V.PageView.image view.old }
    ensures count_of_blocks { V.PageView.block_count view.new ≡ V.PageView.block_count view.old }
    ensures device { V.PageView.device view.new ≡ V.PageView.device view.old }
    ensures fault { CarriesCount (V.PageView.faults view.old) (V.PageView.faults view.new) result }
    ensures visits { V.PageView.tells → IfOk result (λ it. Visits (W.sees (V.PageView.block_count view.old) (V.PageView.image view.old))
        (λ n. live_in (page_of (V.PageView.image view.old)) n (Some page)) from 8 visitor.old visitor.new) }
{
    for k in 0..8 {
        see_slot(view, from + k, page, &inode_in(copy, k), visitor)?;
    }
    Ok(())
}

/// What stands in the slot of inode `n`, if it is in use.
fn see_slot<V: PageView, W: EachInode>(
    view: &mut V,
    n: u32,
    page: u32,
    inode: &Dinode,
    visitor: &mut W,
) -> Result<(), ViewError>
    requires fits { FitsDinode inode.now }
    ensures image { V.PageView.tells → V.PageView.image view.new ≡ V.PageView.image view.old }
    ensures count_of_blocks { V.PageView.block_count view.new ≡ V.PageView.block_count view.old }
    ensures device { V.PageView.device view.new ≡ V.PageView.device view.old }
    ensures fault { CarriesCount (V.PageView.faults view.old) (V.PageView.faults view.new) result }
    ensures step { V.PageView.tells → IfOk result (λ it. inode.now ≡ slot_of (page_of (V.PageView.image view.old) page) (n % 8) →
        Step (W.sees (V.PageView.block_count view.old) (V.PageView.image view.old)) n (live_in (page_of (V.PageView.image view.old)) n (Some page)) visitor.old visitor.new) }
{
    if is_live(n, inode) {
        visitor.inode(view, n, page, inode)
    } else {
        Ok(())
    }
}
