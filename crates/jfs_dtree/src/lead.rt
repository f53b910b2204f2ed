//! Where a page leads a name.

ghost use Rattle.std.specs.Prelude.{◌≡◌, ◌<◌, ◌≤◌, ◌+◌, ◌-◌, ℕ, length, IfOk, true, false};
ghost use Rattle.std.specs.List.{list_all};
ghost use Rattle.jfs_tree.specs.Form.{Leads, IsWithin, TellsLast, HasRisingKeys};
ghost use Rattle.jfs_dtpage.specs.Form.{bytes_of, count_of, is_leaf};
ghost use Rattle.jfs_dtpage.specs.Page.{entries_of, names_of, IsDtPage};
ghost use Rattle.jfs_dtree.specs.Node.{name_scale, child_within, dt_node};
ghost use Rattle.jfs_dtree.specs.Place.{LeadsAt, IsChildAt};

use crate::check::check_page;
use crate::entry::DirEntry;
use jfs_bits::Rule;
use jfs_dtpage::{DtForm, dt_child, dt_find, is_leaf};
use jfs_tree::Way;

/// Where a page leads a name: nowhere else where it is a leaf, else to a child; or the first rule that the page breaks.
pub(crate) fn way_of(bytes: &[u8], form: DtForm, blocks: u32, x: &DirEntry) -> Result<Way, Rule>
    requires { length bytes.now ≡ bytes_of form }
    ensures way { Leads name_scale x.now (dt_node form blocks bytes.now) result }
    ensures within { IfOk result (λ way. IsWithin blocks way) }
    ensures last { IfOk result (λ way. TellsLast (dt_node form blocks bytes.now) way) }
    ensures rise { HasRisingKeys name_scale (dt_node form blocks bytes.now) }
{
    let head = check_page(bytes, form, blocks)?;
    if is_leaf(bytes) {
        return Ok(Way::Here);
    }
    let place = child_place(bytes, form, x.name());
    Ok(Way::Down {
        place: place as usize,
        page: child_page(bytes, form, place, blocks),
        last: place + 1 == u32::from(head.nextindex),
    })
}

/// The place of the last child whose key doesn't come after the name, or of the first one.
fn child_place(bytes: &[u8], form: DtForm, name: &[u16]) -> u32
    requires size { length bytes.now ≡ bytes_of form }
    requires page { IsDtPage form bytes.now }
    requires some { 0 < count_of bytes.now }
    ensures { LeadsAt (names_of form bytes.now) name.now result }
{
    match dt_find(bytes, form, name) {
        Ok(place) => place,
        Err(place) => place.saturating_sub(1),
    }
}

/// The page of the child at a place.
pub(crate) fn child_page(bytes: &[u8], form: DtForm, place: u32, blocks: u32) -> u32
    requires size { length bytes.now ≡ bytes_of form }
    requires page { IsDtPage form bytes.now }
    requires inner { is_leaf bytes.now ≡ false }
    requires place { place < count_of bytes.now }
    requires within { list_all (child_within blocks) (entries_of form bytes.now) ≡ true }
    ensures page { IsChildAt (entries_of form bytes.now) place result }
    ensures within { result < blocks }
{
    dt_child(bytes, form, place).addr as u32
}
