//! A page that takes an entry or a child, perhaps with a new page behind it.

ghost use Rattle.std.specs.Prelude.{◌≡◌, ◌==◌, ◌+◌, if◌then◌else◌, ◌<◌, ◌≤◌, ℕ, Bool, List, length, OnOk, IfOk, IfErr, IfSome, Some};
ghost use Rattle.jfs_tree.specs.Apart.{ApartAt};
ghost use Rattle.jfs_tree.specs.Form.{GoesBehind, IsFront, IsLeaf, as_child};
ghost use Rattle.jfs_tree.specs.Frames.{TakesFramed};
ghost use Rattle.jfs_tree.specs.Removal.{HasChildAt};
ghost use Rattle.jfs_tree.specs.Room.{TakesOne};
ghost use Rattle.jfs_tree.specs.Filled.{HereFilled, ChildFilled};
ghost use Rattle.jfs_tree.specs.Refusal.{HereCut, ChildCut, HereClash, ChildClash};
ghost use Rattle.jfs_tree.specs.Call.{HereDid, ChildDid, StaysBelow, StaysOff, PutsOne, PutsTwo};
ghost use Rattle.jfs_tree.specs.Taken.{DraftsTaken};

use crate::draft::Draft;
use crate::form::{Put, Sibling, TreeError};
use crate::pages::PageForm;
use jfs_bits::Rule;
use jfs_disk::Page;

/// Puts an entry into page `page`, a leaf with these bytes, which may be the last page of its level.
pub(crate) fn take_here<F: PageForm>(
    form: &F,
    draft: &mut Draft,
    fresh: &mut Vec<u32>,
    page: u32,
    last: bool,
    mut bytes: Page,
    x: &F::Entry,
) -> Result<Option<Sibling<F::Key>>, TreeError>
    requires size { F.PageForm.size form.now ≡ 4096 }
    requires below { F.PageForm.is_root form.now → ⊥ }
    requires good { F.PageForm.is_good form.now x.now }
    requires leaf { IsLeaf (F.PageForm.node form.now bytes.0) }
    requires enough { 0 < length fresh.old.items }
    ensures did { HereDid (F.PageForm.node form.now) F.PageForm.scale x.now bytes.0 page draft.old.pages.items draft.new.pages.items fresh.old.items fresh.new.items result }
    ensures used { IfOk result (λ more. length fresh.old.items ≤ length fresh.new.items + 1) }
    ensures room { IfOk result (λ more. TakesOne ((F.PageForm.is_full form.now bytes.0) × (F.PageForm.has_no_room form.now bytes.0 x.now)) more fresh.old.items fresh.new.items) }
    ensures filled { (appends : Bool) (least : ℕ) → F.PageForm.fills appends least → IfOk result (λ more. HereFilled appends least (F.PageForm.node form.now) F.PageForm.scale x.now bytes.0 page last draft.old.pages.items draft.new.pages.items fresh.old.items more) }
    ensures keeps { OnOk result (StaysOff page draft.old.pages.items draft.new.pages.items fresh.old.items fresh.new.items) }
    ensures drafted { OnOk result (DraftsTaken draft.old.pages.items draft.new.pages.items fresh.old.items fresh.new.items) }
    ensures framed { OnOk result (TakesFramed (F.PageForm.frame form.now) (F.PageForm.new_frame form.now) bytes.0 page draft.old.pages.items draft.new.pages.items fresh.old.items fresh.new.items) }
    ensures below { StaysBelow fresh.old.items fresh.new.items result }
    ensures front { IsFront fresh.new.items fresh.old.items }
    ensures key { IfOk result (λ more. IfSome more (λ s. F.PageForm.is_key s.key)) }
    ensures cut { IfOk result (λ more. HereCut F.PageForm.scale x.now (F.PageForm.node form.now bytes.0) more) }
    ensures apart { OnOk result (ApartAt F.PageForm.scale x.now (F.PageForm.node form.now bytes.0)) }
    ensures clash { IfErr result (λ e. HereClash F.PageForm.scale x.now (F.PageForm.node form.now bytes.0) page e) }
{
    match form.put(&mut bytes.0, x) {
        Put::Done => {
            put_one(draft, page, bytes)?;
            Ok(None)
        }
        Put::Clash => Err(TreeError::Bad {
            page,
            rule: Rule::Order,
        }),
        Put::Full => split_here(form, draft, fresh, page, last, bytes, x),
    }
}

fn split_here<F: PageForm>(
    form: &F,
    draft: &mut Draft,
    fresh: &mut Vec<u32>,
    page: u32,
    last: bool,
    mut bytes: Page,
    x: &F::Entry,
) -> Result<Option<Sibling<F::Key>>, TreeError>
    requires size { F.PageForm.size form.now ≡ 4096 }
    requires below { F.PageForm.is_root form.now → ⊥ }
    requires good { F.PageForm.is_good form.now x.now }
    requires leaf { IsLeaf (F.PageForm.node form.now bytes.0) }
    requires enough { 0 < length fresh.old.items }
    requires full { (F.PageForm.is_full form.now bytes.0) × (F.PageForm.has_no_room form.now bytes.0 x.now) }
    requires apart { ApartAt F.PageForm.scale x.now (F.PageForm.node form.now bytes.0) }
    ensures did { HereDid (F.PageForm.node form.now) F.PageForm.scale x.now bytes.0 page draft.old.pages.items draft.new.pages.items fresh.old.items fresh.new.items result }
    ensures used { IfOk result (λ more. length fresh.old.items ≤ length fresh.new.items + 1) }
    ensures room { IfOk result (λ more. TakesOne ((F.PageForm.is_full form.now bytes.0) × (F.PageForm.has_no_room form.now bytes.0 x.now)) more fresh.old.items fresh.new.items) }
    ensures filled { (appends : Bool) (least : ℕ) → F.PageForm.fills appends least → IfOk result (λ more. HereFilled appends least (F.PageForm.node form.now) F.PageForm.scale x.now bytes.0 page last draft.old.pages.items draft.new.pages.items fresh.old.items more) }
    ensures keeps { OnOk result (StaysOff page draft.old.pages.items draft.new.pages.items fresh.old.items fresh.new.items) }
    ensures drafted { OnOk result (DraftsTaken draft.old.pages.items draft.new.pages.items fresh.old.items fresh.new.items) }
    ensures framed { OnOk result (TakesFramed (F.PageForm.frame form.now) (F.PageForm.new_frame form.now) bytes.0 page draft.old.pages.items draft.new.pages.items fresh.old.items fresh.new.items) }
    ensures below { StaysBelow fresh.old.items fresh.new.items result }
    ensures front { IsFront fresh.new.items fresh.old.items }
    ensures key { IfOk result (λ more. IfSome more (λ s. F.PageForm.is_key s.key)) }
    ensures cut { IfOk result (λ more. HereCut F.PageForm.scale x.now (F.PageForm.node form.now bytes.0) more) }
    ensures apart { OnOk result (ApartAt F.PageForm.scale x.now (F.PageForm.node form.now bytes.0)) }
    ensures clash { IfErr result (λ e. HereClash F.PageForm.scale x.now (F.PageForm.node form.now bytes.0) page e) }
{
    let Some(q) = fresh.pop() else {
        unreachable!();
    };
    let mut right = Page::zeros();
    let key = form.split(page, q, last, &mut bytes.0, &mut right.0, x);
    put_two(draft, page, bytes, q, right)?;
    Ok(Some(Sibling { key, page: q }))
}

/// Puts a child behind the one at a place into page `page`, an inner page with these bytes.
pub(crate) fn take_child<F: PageForm>(
    form: &F,
    draft: &mut Draft,
    fresh: &mut Vec<u32>,
    page: u32,
    last: bool,
    mut bytes: Page,
    place: usize,
    sibling: Sibling<F::Key>,
) -> Result<Option<Sibling<F::Key>>, TreeError>
    requires size { F.PageForm.size form.now ≡ 4096 }
    requires below { F.PageForm.is_root form.now → ⊥ }
    requires within { sibling.page < F.PageForm.blocks form.now }
    requires there { HasChildAt place (F.PageForm.node form.now bytes.0) }
    requires key { F.PageForm.is_key sibling.key }
    requires enough { 0 < length fresh.old.items }
    ensures did { ChildDid (F.PageForm.node form.now) F.PageForm.scale bytes.0 page place sibling draft.old.pages.items draft.new.pages.items fresh.old.items fresh.new.items result }
    ensures used { IfOk result (λ more. length fresh.old.items ≤ length fresh.new.items + 1) }
    ensures room { IfOk result (λ more. TakesOne (F.PageForm.is_full form.now bytes.0) more fresh.old.items fresh.new.items) }
    ensures filled { (appends : Bool) (least : ℕ) → F.PageForm.fills appends least → IfOk result (λ more. ChildFilled appends least (F.PageForm.node form.now) F.PageForm.scale bytes.0 page place last (Some sibling) draft.old.pages.items draft.new.pages.items fresh.old.items more) }
    ensures keeps { OnOk result (StaysOff page draft.old.pages.items draft.new.pages.items fresh.old.items fresh.new.items) }
    ensures drafted { OnOk result (DraftsTaken draft.old.pages.items draft.new.pages.items fresh.old.items fresh.new.items) }
    ensures framed { OnOk result (TakesFramed (F.PageForm.frame form.now) (F.PageForm.new_frame form.now) bytes.0 page draft.old.pages.items draft.new.pages.items fresh.old.items fresh.new.items) }
    ensures below { StaysBelow fresh.old.items fresh.new.items result }
    ensures front { IsFront fresh.new.items fresh.old.items }
    ensures key { IfOk result (λ more. IfSome more (λ s. F.PageForm.is_key s.key)) }
    ensures cut { IfOk result (λ more. ChildCut (F.PageForm.node form.now bytes.0) place sibling more) }
    ensures clash { IfErr result (λ e. ChildClash F.PageForm.scale (F.PageForm.node form.now bytes.0) page place sibling e) }
{
    match form.put_child(&mut bytes.0, place, &sibling) {
        Put::Done => {
            put_one(draft, page, bytes)?;
            Ok(None)
        }
        Put::Clash => Err(TreeError::Bad {
            page,
            rule: Rule::Order,
        }),
        Put::Full => split_child(form, draft, fresh, page, last, bytes, place, sibling),
    }
}

fn split_child<F: PageForm>(
    form: &F,
    draft: &mut Draft,
    fresh: &mut Vec<u32>,
    page: u32,
    last: bool,
    mut bytes: Page,
    place: usize,
    sibling: Sibling<F::Key>,
) -> Result<Option<Sibling<F::Key>>, TreeError>
    requires size { F.PageForm.size form.now ≡ 4096 }
    requires below { F.PageForm.is_root form.now → ⊥ }
    requires within { sibling.page < F.PageForm.blocks form.now }
    requires there { HasChildAt place (F.PageForm.node form.now bytes.0) }
    requires key { F.PageForm.is_key sibling.key }
    requires enough { 0 < length fresh.old.items }
    requires full { F.PageForm.is_full form.now bytes.0 }
    requires goes { GoesBehind F.PageForm.scale (F.PageForm.node form.now bytes.0) place (as_child sibling) }
    ensures did { ChildDid (F.PageForm.node form.now) F.PageForm.scale bytes.0 page place sibling draft.old.pages.items draft.new.pages.items fresh.old.items fresh.new.items result }
    ensures used { IfOk result (λ more. length fresh.old.items ≤ length fresh.new.items + 1) }
    ensures room { IfOk result (λ more. TakesOne (F.PageForm.is_full form.now bytes.0) more fresh.old.items fresh.new.items) }
    ensures filled { (appends : Bool) (least : ℕ) → F.PageForm.fills appends least → IfOk result (λ more. ChildFilled appends least (F.PageForm.node form.now) F.PageForm.scale bytes.0 page place last (Some sibling) draft.old.pages.items draft.new.pages.items fresh.old.items more) }
    ensures keeps { OnOk result (StaysOff page draft.old.pages.items draft.new.pages.items fresh.old.items fresh.new.items) }
    ensures drafted { OnOk result (DraftsTaken draft.old.pages.items draft.new.pages.items fresh.old.items fresh.new.items) }
    ensures framed { OnOk result (TakesFramed (F.PageForm.frame form.now) (F.PageForm.new_frame form.now) bytes.0 page draft.old.pages.items draft.new.pages.items fresh.old.items fresh.new.items) }
    ensures below { StaysBelow fresh.old.items fresh.new.items result }
    ensures front { IsFront fresh.new.items fresh.old.items }
    ensures key { IfOk result (λ more. IfSome more (λ s. F.PageForm.is_key s.key)) }
    ensures cut { IfOk result (λ more. ChildCut (F.PageForm.node form.now bytes.0) place sibling more) }
    ensures clash { IfErr result (λ e. ChildClash F.PageForm.scale (F.PageForm.node form.now bytes.0) page place sibling e) }
{
    let Some(q) = fresh.pop() else {
        unreachable!();
    };
    let mut right = Page::zeros();
    let key = form.split_child(page, q, last, &mut bytes.0, &mut right.0, place, &sibling);
    put_two(draft, page, bytes, q, right)?;
    Ok(Some(Sibling { key, page: q }))
}

/// The draft has pages `page` and `q` with these bytes from now on. `Memory` is the only error; the draft is then to be thrown away.
pub fn put_two(
    draft: &mut Draft,
    page: u32,
    left: Page,
    q: u32,
    right: Page,
) -> Result<(), TreeError>
    ensures puts { OnOk result (PutsTwo draft.old.pages.items draft.new.pages.items page left.0 q right.0) }
    ensures cause { IfErr result (λ e. e ≡ TreeError.Memory) }
{
    put_one(draft, page, left)?;
    put_one(draft, q, right)
}

/// The draft has page `n` with these bytes from now on. `Memory` is the only error; the draft is then to be thrown away.
pub fn put_one(draft: &mut Draft, n: u32, page: Page) -> Result<(), TreeError>
    ensures puts { OnOk result (PutsOne draft.old.pages.items draft.new.pages.items n page.0) }
    ensures cause { IfErr result (λ e. e ≡ TreeError.Memory) }
{
    match draft.put(n, page) {
        Ok(()) => Ok(()),
        Err(_) => Err(TreeError::Memory),
    }
}
