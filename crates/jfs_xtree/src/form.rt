//! The pages of extent trees, as trees of pages need them.

ghost use Rattle.std.specs.Prelude.{◌≡◌, ◌<◌, ◌≤◌, ◌+◌, ◌*◌, ◌-◌, ◌^◌, ℕ, Bool, List, length, IfOk, true, false, if◌then◌else◌};
ghost use Rattle.jfs_bits.specs.Extent.{FitsXad};
ghost use Rattle.jfs_xtpage.specs.Page.{bytes_of, head_of};
ghost use Rattle.jfs_xtpage.specs.declared.head.XtForm.TheVariants.{Full};
ghost use Rattle.jfs_tree.specs.Walk.{Child, Leaf};
ghost use Rattle.jfs_tree.specs.Edit.{IsApart, KeysRise, with_entry};
ghost use Rattle.jfs_tree.specs.Filled.{ComesPast, FillsBoth};
ghost use Rattle.jfs_tree.specs.Form.{AtPlace, SplitsRows, SplitsChildren, as_child};
ghost use Rattle.jfs_xtree.specs.Node.{xt_scale, xt_node, frame_of, new_frame, AreNeighbours, IsGood, HasNoRoom, IsRoot};
ghost use Rattle.jfs_xtree.specs.Laws.{order};

use crate::check::{check_page, is_leaf};
use crate::children::{child_entry, child_place, make_way, page_of, takes_child};
use crate::parts::{insert, part};
use crate::place::{find_at, goes_between, is_laid_out, place_of};
use jfs_bits::{Rule, Xad, get_u8, get_u16};
use jfs_tree::{PageForm, Put, Sibling, Way, page_at};
use jfs_xtpage::{XtForm, xt_insert, xt_new, xt_set_kind, xt_split};

/// Roots or pages of extent trees, on a volume whose file system part has so many blocks.
#[derive(Clone, Copy, PartialEq, Eq, Debug)]
pub struct XtPages {
    pub form: XtForm,
    pub blocks: u32,
}

impl PageForm for XtPages {
    type Key = u64;

    type Entry = Xad;

    ghost scale = { xt_scale };

    ghost node = { λ f. xt_node f.form f.blocks };

    ghost size = { λ f. bytes_of f.form };

    ghost blocks = { λ f. f.blocks };

    ghost is_good = { λ f. IsGood f.blocks };

    ghost is_full = { λ f. HasNoRoom f.form };

    ghost has_no_room = { λ f bytes x. HasNoRoom f.form bytes };

    ghost has_no_place = { λ f bytes key. HasNoRoom f.form bytes };

    ghost is_key = { λ k. k < 2 ^ 40 };

    ghost is_root = { λ f. IsRoot f.form };

    ghost fills = { λ appends least. least ≤ (if appends then 254 else 127) };

    ghost below = { λ f. record { form = Full; blocks = f.blocks } };

    ghost frame = { λ f. frame_of f.form };

    ghost new_frame = { λ f. new_frame };

    fn way(&self, bytes: &[u8], x: &Xad) -> Result<Way, Rule> {
        let head = check_page(bytes, self.form, self.blocks)?;
        if is_leaf(head.flag) {
            return Ok(Way::Here);
        }
        let place = child_place(bytes, x.offset);
        Ok(Way::Down {
            place: usize::from(place),
            page: page_of(bytes, place, self.blocks),
            last: place + 3 == head.nextindex,
        })
    }

    fn is_bare(&self, bytes: &[u8]) -> bool {
        get_u16(bytes, 18) == 2
    }

    fn find(&self, bytes: &[u8], x: &Xad) -> Option<Xad> {
        if !is_laid_out(bytes, self.form) {
            return None;
        }
        find_at(bytes, place_of(bytes, x.offset), x)
    }

    fn put(&self, bytes: &mut [u8], x: &Xad) -> Put {
        if !is_laid_out(bytes, self.form) {
            return Put::Clash;
        }
        let place = place_of(bytes, x.offset);
        if !goes_between(bytes, place, x) {
            return Put::Clash;
        }
        match xt_insert(bytes, place, *x) {
            Ok(()) => Put::Done,
            Err(_) => Put::Full,
        }
    }

    fn split(&self, n: u32, q: u32, last: bool, bytes: &mut [u8], right: &mut [u8], x: &Xad) -> u64
        requires below { IsRoot self.now.form → ⊥ }
        requires size { (length bytes.old ≡ bytes_of self.now.form) × (length right.old ≡ bytes_of self.now.form) }
        requires good { IsGood self.now.blocks x.now }
        requires full { HasNoRoom self.now.form bytes.old }
        ensures parts { (es : List Xad) → xt_node self.now.form self.now.blocks bytes.old ≡ Leaf es → IsApart xt_scale x.now es →
            SplitsRows xt_scale (with_entry xt_scale x.now es) (xt_node self.now.form self.now.blocks bytes.new) (xt_node self.now.form self.now.blocks right.new) result }
        ensures fills { (appends : Bool) (least : ℕ) → least ≤ (if appends then 254 else 127) → (es : List Xad) → xt_node self.now.form self.now.blocks bytes.old ≡ Leaf es → IsApart xt_scale x.now es → (appends ≡ true → (last ≡ true) × ComesPast xt_scale x.now es) →
            FillsBoth least last (xt_node self.now.form self.now.blocks bytes.new) (xt_node self.now.form self.now.blocks right.new) }
        ensures key { result < 2 ^ 40 }
        ensures frame { frame_of self.now.form bytes.new ≡ frame_of self.now.form bytes.old }
        ensures new { (es : List Xad) → xt_node self.now.form self.now.blocks bytes.old ≡ Leaf es → IsApart xt_scale x.now es → frame_of self.now.form right.new ≡ new_frame q }
        ensures links { AreNeighbours n q (head_of bytes.old) (head_of bytes.new) (head_of right.new) }
    {
        let place = place_of(bytes, x.offset);
        part(n, q, last, self.form, true, bytes, right, place, *x)
    }

    fn put_child(&self, bytes: &mut [u8], place: usize, child: &Sibling<u64>) -> Put {
        if !is_laid_out(bytes, self.form) || !takes_child(bytes, place, child.key) {
            return Put::Clash;
        }
        if get_u16(bytes, 18) == get_u16(bytes, 20) {
            return Put::Full;
        }
        make_way(bytes, place as u16, child.key);
        insert(bytes, place as u16 + 1, child_entry(child.key, child.page));
        Put::Done
    }

    fn split_child(
        &self,
        n: u32,
        q: u32,
        last: bool,
        bytes: &mut [u8],
        right: &mut [u8],
        place: usize,
        child: &Sibling<u64>,
    ) -> u64
        requires below { IsRoot self.now.form → ⊥ }
        requires size { (length bytes.old ≡ bytes_of self.now.form) × (length right.old ≡ bytes_of self.now.form) }
        requires within { child.now.page < self.now.blocks }
        requires key { child.now.key < 2 ^ 40 }
        requires full { HasNoRoom self.now.form bytes.old }
        ensures parts { (all : List (Child ℕ)) → AtPlace (xt_node self.now.form self.now.blocks bytes.old) place (as_child child.now) all → KeysRise xt_scale all →
            SplitsChildren all (xt_node self.now.form self.now.blocks bytes.new) (xt_node self.now.form self.now.blocks right.new) result }
        ensures fills { (appends : Bool) (least : ℕ) → least ≤ (if appends then 254 else 127) → (all : List (Child ℕ)) → AtPlace (xt_node self.now.form self.now.blocks bytes.old) place (as_child child.now) all → KeysRise xt_scale all → (appends ≡ true → (last ≡ true) × (length all ≡ place + 2)) →
            FillsBoth least last (xt_node self.now.form self.now.blocks bytes.new) (xt_node self.now.form self.now.blocks right.new) }
        ensures key { result < 2 ^ 40 }
        ensures frame { frame_of self.now.form bytes.new ≡ frame_of self.now.form bytes.old }
        ensures new { (all : List (Child ℕ)) → AtPlace (xt_node self.now.form self.now.blocks bytes.old) place (as_child child.now) all → KeysRise xt_scale all → frame_of self.now.form right.new ≡ new_frame q }
        ensures links { AreNeighbours n q (head_of bytes.old) (head_of bytes.new) (head_of right.new) }
    {
        let before = place.min(usize::from(get_u16(bytes, 18) - 3)) as u16;
        make_way(bytes, before, child.key);
        part(
            n,
            q,
            last,
            self.form,
            false,
            bytes,
            right,
            before + 1,
            child_entry(child.key, child.page),
        )
    }

    fn move_down(&self, pages: &Self, q: u32, root: &mut [u8], page: &mut [u8]) {
        let leaf = is_leaf(get_u8(root, 16));
        xt_new(page, pages.form, leaf, page_at(q));
        xt_split(root, page, 0);
        xt_set_kind(root, false);
        insert(root, 0, child_entry(0, q));
    }

    ghost order = { order };
}
