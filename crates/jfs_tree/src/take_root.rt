//! A root that takes an entry or a child; one without room moves to a new page first.

ghost use Rattle.std.specs.Prelude.{◌≡◌, ◌+◌, ◌<◌, ◌≤◌, ℕ, List, OnOk, IfErr, length};
ghost use Rattle.jfs_tree.specs.Apart.{ApartAt};
ghost use Rattle.jfs_tree.specs.Form.{AllBelow, IsFront};
ghost use Rattle.jfs_tree.specs.Frames.{NamesTaken};
ghost use Rattle.jfs_tree.specs.Call.{StaysTaken};
ghost use Rattle.jfs_tree.specs.Spells.{no_page};
ghost use Rattle.jfs_tree.specs.Room.{RootRoom, RootChildRoom};
ghost use Rattle.jfs_tree.specs.Refusal.{HereClash, RootClash};
ghost use Rattle.jfs_tree.specs.Root.{RootHereDid, RootChildDid};
ghost use Rattle.jfs_tree.specs.Taken.{DraftsTaken};

use crate::draft::Draft;
use crate::form::{NO_PAGE, Put, Sibling, TreeError};
use crate::pages::PageForm;
use crate::take::put_one;
use jfs_bits::Rule;
use jfs_disk::Page;

/// Puts an entry into a root that is a leaf.
pub(crate) fn root_takes_here<F: PageForm>(
    top: &F,
    form: &F,
    draft: &mut Draft,
    fresh: &mut Vec<u32>,
    root: &mut [u8],
    x: &F::Entry,
) -> Result<(), TreeError>
    requires root { length root.old ≡ F.PageForm.size top.now }
    requires size { F.PageForm.size form.now ≡ 4096 }
    requires top { F.PageForm.is_root top.now }
    requires pages { F.PageForm.below top.now ≡ form.now }
    requires good { (F.PageForm.is_good top.now x.now) × (F.PageForm.is_good form.now x.now) }
    requires enough { 0 < length fresh.old.items }
    requires within { AllBelow (F.PageForm.blocks top.now) fresh.old.items }
    ensures did { RootHereDid (F.PageForm.node form.now) F.PageForm.scale x.now (F.PageForm.node top.now root.old) (F.PageForm.node top.now root.new) draft.old.pages.items draft.new.pages.items fresh.old.items fresh.new.items result }
    ensures room { OnOk result (RootRoom ((F.PageForm.is_full top.now root.old) × (F.PageForm.has_no_room top.now root.old x.now)) fresh.old.items fresh.new.items) }
    ensures keeps { OnOk result (StaysTaken draft.old.pages.items draft.new.pages.items fresh.old.items fresh.new.items) }
    ensures drafted { OnOk result (DraftsTaken draft.old.pages.items draft.new.pages.items fresh.old.items fresh.new.items) }
    ensures names { OnOk result (NamesTaken (F.PageForm.frame form.now) (F.PageForm.new_frame form.now) draft.new.pages.items fresh.old.items fresh.new.items) }
    ensures frame { F.PageForm.frame top.now root.new ≡ F.PageForm.frame top.now root.old }
    ensures below { AllBelow (F.PageForm.blocks top.now) fresh.new.items }
    ensures front { IsFront fresh.new.items fresh.old.items }
    ensures clash { IfErr result (λ e. HereClash F.PageForm.scale x.now (F.PageForm.node top.now root.old) no_page e) }
    ensures apart { OnOk result (ApartAt F.PageForm.scale x.now (F.PageForm.node top.now root.old)) }
{
    match top.put(root, x) {
        Put::Done => Ok(()),
        Put::Clash => Err(TreeError::Bad {
            page: NO_PAGE,
            rule: Rule::Order,
        }),
        Put::Full => moves_with_entry(top, form, draft, fresh, root, x),
    }
}

/// Moves a full root to a new page, and puts the entry there.
fn moves_with_entry<F: PageForm>(
    top: &F,
    form: &F,
    draft: &mut Draft,
    fresh: &mut Vec<u32>,
    root: &mut [u8],
    x: &F::Entry,
) -> Result<(), TreeError>
    requires root { length root.old ≡ F.PageForm.size top.now }
    requires size { F.PageForm.size form.now ≡ 4096 }
    requires top { F.PageForm.is_root top.now }
    requires pages { F.PageForm.below top.now ≡ form.now }
    requires good { F.PageForm.is_good form.now x.now }
    requires full { F.PageForm.is_full top.now root.old }
    requires enough { 0 < length fresh.old.items }
    requires within { AllBelow (F.PageForm.blocks top.now) fresh.old.items }
    ensures did { RootHereDid (F.PageForm.node form.now) F.PageForm.scale x.now (F.PageForm.node top.now root.old) (F.PageForm.node top.now root.new) draft.old.pages.items draft.new.pages.items fresh.old.items fresh.new.items result }
    ensures one { length fresh.old.items ≡ length fresh.new.items + 1 }
    ensures keeps { OnOk result (StaysTaken draft.old.pages.items draft.new.pages.items fresh.old.items fresh.new.items) }
    ensures drafted { OnOk result (DraftsTaken draft.old.pages.items draft.new.pages.items fresh.old.items fresh.new.items) }
    ensures names { OnOk result (NamesTaken (F.PageForm.frame form.now) (F.PageForm.new_frame form.now) draft.new.pages.items fresh.old.items fresh.new.items) }
    ensures frame { F.PageForm.frame top.now root.new ≡ F.PageForm.frame top.now root.old }
    ensures below { AllBelow (F.PageForm.blocks top.now) fresh.new.items }
    ensures front { IsFront fresh.new.items fresh.old.items }
    ensures clash { IfErr result (λ e. HereClash F.PageForm.scale x.now (F.PageForm.node top.now root.old) no_page e) }
{
    let Some(q) = fresh.pop() else {
        unreachable!();
    };
    let mut page = Page::zeros();
    top.move_down(form, q, root, &mut page.0);
    match form.put(&mut page.0, x) {
        Put::Done => put_one(draft, q, page),
        Put::Clash => Err(TreeError::Bad {
            page: NO_PAGE,
            rule: Rule::Order,
        }),
        Put::Full => unreachable!(),
    }
}

/// Puts a child, which has so many levels, behind the one at a place of a root. A tree of 8 levels gets no ninth.
pub(crate) fn root_takes_child<F: PageForm>(
    top: &F,
    form: &F,
    draft: &mut Draft,
    fresh: &mut Vec<u32>,
    root: &mut [u8],
    place: usize,
    child: Sibling<F::Key>,
    levels: u32,
) -> Result<(), TreeError>
    requires root { length root.old ≡ F.PageForm.size top.now }
    requires bound { F.PageForm.blocks form.now ≡ F.PageForm.blocks top.now }
    requires size { F.PageForm.size form.now ≡ 4096 }
    requires top { F.PageForm.is_root top.now }
    requires pages { F.PageForm.below top.now ≡ form.now }
    requires child { child.page < F.PageForm.blocks top.now }
    requires key { F.PageForm.is_key child.key }
    requires enough { 0 < length fresh.old.items }
    requires within { AllBelow (F.PageForm.blocks top.now) fresh.old.items }
    ensures did { RootChildDid (F.PageForm.node form.now) F.PageForm.scale levels place child (F.PageForm.node top.now root.old) (F.PageForm.node top.now root.new) draft.old.pages.items draft.new.pages.items fresh.old.items fresh.new.items result }
    ensures room { RootChildRoom F.PageForm.scale ((F.PageForm.is_full top.now root.old) × (F.PageForm.has_no_place top.now root.old child.key)) place child (F.PageForm.node top.now root.old) fresh.old.items fresh.new.items result }
    ensures keeps { OnOk result (StaysTaken draft.old.pages.items draft.new.pages.items fresh.old.items fresh.new.items) }
    ensures drafted { OnOk result (DraftsTaken draft.old.pages.items draft.new.pages.items fresh.old.items fresh.new.items) }
    ensures names { OnOk result (NamesTaken (F.PageForm.frame form.now) (F.PageForm.new_frame form.now) draft.new.pages.items fresh.old.items fresh.new.items) }
    ensures frame { F.PageForm.frame top.now root.new ≡ F.PageForm.frame top.now root.old }
    ensures below { AllBelow (F.PageForm.blocks top.now) fresh.new.items }
    ensures front { IsFront fresh.new.items fresh.old.items }
    ensures clash { IfErr result (λ e. RootClash F.PageForm.scale (F.PageForm.node top.now root.old) levels place (λ key. (F.PageForm.is_full top.now root.old) × (F.PageForm.has_no_place top.now root.old key)) child e) }
{
    match top.put_child(root, place, &child) {
        Put::Done => Ok(()),
        Put::Clash => Err(TreeError::Bad {
            page: NO_PAGE,
            rule: Rule::Order,
        }),
        Put::Full => {
            if levels >= 7 {
                return Err(TreeError::Bad {
                    page: NO_PAGE,
                    rule: Rule::Deep,
                });
            }
            moves_with_child(top, form, draft, fresh, root, place, child, levels)
        }
    }
}

/// Moves a full root to a new page, and puts the child there.
fn moves_with_child<F: PageForm>(
    top: &F,
    form: &F,
    draft: &mut Draft,
    fresh: &mut Vec<u32>,
    root: &mut [u8],
    place: usize,
    child: Sibling<F::Key>,
    levels: u32,
) -> Result<(), TreeError>
    requires root { length root.old ≡ F.PageForm.size top.now }
    requires bound { F.PageForm.blocks form.now ≡ F.PageForm.blocks top.now }
    requires size { F.PageForm.size form.now ≡ 4096 }
    requires top { F.PageForm.is_root top.now }
    requires pages { F.PageForm.below top.now ≡ form.now }
    requires child { child.page < F.PageForm.blocks top.now }
    requires key { F.PageForm.is_key child.key }
    requires full { F.PageForm.is_full top.now root.old }
    requires room { levels < 7 }
    requires enough { 0 < length fresh.old.items }
    requires within { AllBelow (F.PageForm.blocks top.now) fresh.old.items }
    ensures did { RootChildDid (F.PageForm.node form.now) F.PageForm.scale levels place child (F.PageForm.node top.now root.old) (F.PageForm.node top.now root.new) draft.old.pages.items draft.new.pages.items fresh.old.items fresh.new.items result }
    ensures one { length fresh.old.items ≡ length fresh.new.items + 1 }
    ensures keeps { OnOk result (StaysTaken draft.old.pages.items draft.new.pages.items fresh.old.items fresh.new.items) }
    ensures drafted { OnOk result (DraftsTaken draft.old.pages.items draft.new.pages.items fresh.old.items fresh.new.items) }
    ensures names { OnOk result (NamesTaken (F.PageForm.frame form.now) (F.PageForm.new_frame form.now) draft.new.pages.items fresh.old.items fresh.new.items) }
    ensures frame { F.PageForm.frame top.now root.new ≡ F.PageForm.frame top.now root.old }
    ensures below { AllBelow (F.PageForm.blocks top.now) fresh.new.items }
    ensures front { IsFront fresh.new.items fresh.old.items }
    ensures clash { IfErr result (λ e. RootClash F.PageForm.scale (F.PageForm.node top.now root.old) levels place (λ key. (F.PageForm.is_full top.now root.old) × (F.PageForm.has_no_place top.now root.old key)) child e) }
{
    let Some(q) = fresh.pop() else {
        unreachable!();
    };
    let mut page = Page::zeros();
    top.move_down(form, q, root, &mut page.0);
    match form.put_child(&mut page.0, place, &child) {
        Put::Done => put_one(draft, q, page),
        Put::Clash => Err(TreeError::Bad {
            page: NO_PAGE,
            rule: Rule::Order,
        }),
        Put::Full => unreachable!(),
    }
}
