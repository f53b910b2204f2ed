//! The pages of directory trees, as trees of pages need them.

ghost use Rattle.std.specs.Prelude.{◌≡◌, ◌<◌, ℕ, List, length, IfOk, true, false};
ghost use Rattle.jfs_dtpage.specs.Form.{bytes_of};
ghost use Rattle.jfs_dtpage.specs.declared.head.DtForm.TheVariants.{Full};
ghost use Rattle.jfs_dtree.specs.Frame.{frame_of, new_frame};
ghost use Rattle.jfs_dtree.specs.Node.{name_scale, dt_node, IsGood, IsKey, HasNoRoom, LacksRoom, IsRoot};
ghost use Rattle.jfs_dtree.specs.Laws.{order};

use crate::children::{put_child, split_child};
use crate::entry::{DirEntry, NameKey};
use crate::lead::way_of;
use crate::leaf::{found_at, put_name};
use crate::move_down::move_down;
use crate::split::split;
use jfs_bits::Rule;
use jfs_dtpage::{DtForm, count_of};
use jfs_tree::{PageForm, Put, Sibling, Way};

/// Roots or pages of directory trees, on a volume whose file system part has so many blocks.
#[derive(Clone, Copy, PartialEq, Eq, Debug)]
pub struct DtPages {
    pub form: DtForm,
    pub blocks: u32,
}

impl PageForm for DtPages {
    type Key = NameKey;

    type Entry = DirEntry;

    ghost scale = { name_scale };

    ghost node = { λ f. dt_node f.form f.blocks };

    ghost size = { λ f. bytes_of f.form };

    ghost blocks = { λ f. f.blocks };

    ghost is_good = { λ f. IsGood };

    ghost is_full = { λ f. HasNoRoom f.form };

    ghost has_no_room = { λ f bytes x. LacksRoom true (length x.name) bytes };

    ghost has_no_place = { λ f bytes key. LacksRoom false (length key) bytes };

    ghost is_key = { IsKey };

    ghost is_root = { λ f. IsRoot f.form };

    ghost fills = { λ appends least. ⊥ };

    ghost below = { λ f. record { form = Full; blocks = f.blocks } };

    ghost frame = { λ f. frame_of f.form };

    ghost new_frame = { λ f. new_frame };

    fn way(&self, bytes: &[u8], x: &DirEntry) -> Result<Way, Rule> {
        way_of(bytes, self.form, self.blocks, x)
    }

    fn is_bare(&self, bytes: &[u8]) -> bool {
        count_of(bytes) == 0
    }

    fn find(&self, bytes: &[u8], x: &DirEntry) -> Option<DirEntry> {
        found_at(bytes, self.form, x)
    }

    fn put(&self, bytes: &mut [u8], x: &DirEntry) -> Put {
        put_name(bytes, self.form, x)
    }

    fn split(
        &self,
        n: u32,
        q: u32,
        last: bool,
        bytes: &mut [u8],
        right: &mut [u8],
        x: &DirEntry,
    ) -> NameKey {
        split(n, q, last, bytes, right, x)
    }

    fn put_child(&self, bytes: &mut [u8], place: usize, child: &Sibling<NameKey>) -> Put {
        put_child(self.form, bytes, place, child)
    }

    fn split_child(
        &self,
        n: u32,
        q: u32,
        last: bool,
        bytes: &mut [u8],
        right: &mut [u8],
        place: usize,
        child: &Sibling<NameKey>,
    ) -> NameKey {
        split_child(n, q, last, bytes, right, place, child)
    }

    fn move_down(&self, pages: &Self, q: u32, root: &mut [u8], page: &mut [u8]) {
        move_down(q, root, page);
    }

    ghost order = { order };
}
