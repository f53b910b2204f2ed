//! Pages beside each other on a level of a tree, from the root down.

ghost use Rattle.std.specs.Prelude.{◌≡◌, ◌<◌, ℕ, Bool, true, length, IfOk, IfErr, IfSome};
ghost use Rattle.jfs_tree.specs.Walking.{children_in};
ghost use Rattle.jfs_tree.specs.Call.{nodes, CarriesFault, IsRead};
ghost use Rattle.jfs_tree.specs.Linking.{AreBelow, Has, HasAll, IsChild, IsClosed, NamesAll};

use crate::draft::Draft;
use crate::form::{TreeError, Way};
use crate::walk_read::{PageRead, Shape};
use jfs_ranges::PageView;

/// Pages of one level: the one to which the tree leads an entry, the one before it, and the two behind it, where there are any. All are found from the
/// root down; no link is followed.
#[derive(Clone, Copy, PartialEq, Eq, Debug)]
pub struct Beside {
    pub before: Option<u32>,
    pub here: u32,
    pub behind: Option<u32>,
    pub next: Option<u32>,
}

/// How many children a page has. One that breaks a rule has none.
fn child_count<F: PageRead>(form: &F, bytes: &[u8]) -> usize
    requires { length bytes.now ≡ F.PageForm.size form.now }
    ensures { result ≡ length (children_in (F.PageForm.node form.now bytes.now)) }
{
    match form.shape(bytes) {
        Ok(Shape::Inner(count)) => count,
        Ok(Shape::Leaf(_)) | Err(_) => 0,
    }
}

/// The page that child `i` of an inner page is.
fn child_page<F: PageRead>(form: &F, bytes: &[u8], i: usize) -> u32
    requires size { length bytes.now ≡ F.PageForm.size form.now }
    requires place { i < length (children_in (F.PageForm.node form.now bytes.now)) }
    ensures child { IsChild (F.PageForm.node form.now bytes.now) result }
    ensures within { result < F.PageForm.blocks form.now }
{
    form.child(bytes, i).page
}

/// The same where the page has so many children.
fn child_at<F: PageRead>(form: &F, bytes: &[u8], i: usize) -> Option<u32>
    requires { length bytes.now ≡ F.PageForm.size form.now }
    ensures child { IfSome result (IsChild (F.PageForm.node form.now bytes.now)) }
    ensures within { IfSome result (λ n. n < F.PageForm.blocks form.now) }
{
    if i < child_count(form, bytes) {
        return Some(child_page(form, bytes, i));
    }
    None
}

/// The children beside the one to which an inner page leads an entry, as far as they are its own.
pub(crate) fn children_beside<F: PageRead>(form: &F, bytes: &[u8], x: &F::Entry) -> Option<Beside>
    requires { length bytes.now ≡ F.PageForm.size form.now }
    ensures within { IfSome result (AreBelow (F.PageForm.blocks form.now)) }
    ensures children { IfSome result (NamesAll (F.PageForm.node form.now bytes.now)) }
{
    let Ok(Way::Down { place, .. }) = form.way(bytes, x) else {
        return None;
    };
    let count = child_count(form, bytes);
    if place >= count {
        return None;
    }
    Some(Beside {
        before: if place > 0 {
            Some(child_page(form, bytes, place - 1))
        } else {
            None
        },
        here: child_page(form, bytes, place),
        behind: if count - place > 1 {
            Some(child_page(form, bytes, place + 1))
        } else {
            None
        },
        next: if count - place > 2 {
            Some(child_page(form, bytes, place + 2))
        } else {
            None
        },
    })
}

/// The first two children of a page, where it has them.
fn first_children<V: PageView, F: PageRead>(
    form: &F,
    view: &mut V,
    draft: &Draft,
    page: Option<u32>,
) -> Result<(Option<u32>, Option<u32>), TreeError>
    requires page { IfSome page (λ n. n < V.PageView.block_count view.old) }
    requires bound { F.PageForm.blocks form.now ≡ V.PageView.block_count view.old }
    requires size { F.PageForm.size form.now ≡ 4096 }
    ensures image { V.PageView.tells → V.PageView.image view.new ≡ V.PageView.image view.old }
    ensures count_of_blocks { V.PageView.block_count view.new ≡ V.PageView.block_count view.old }
    ensures device { V.PageView.device view.new ≡ V.PageView.device view.old }
    ensures fault { CarriesFault (V.PageView.faults view.old) (V.PageView.faults view.new) result }
    ensures children { V.PageView.tells → IfOk result (λ pages. (own : ℕ → Bool) → IsClosed (nodes (F.PageForm.node form.now) draft.now.pages.items (V.PageView.image view.old)) own → Has own page → Has own pages.0 × Has own pages.1) }
    ensures within { IfOk result (λ pages. IfSome pages.0 (λ n. n < V.PageView.block_count view.old) × IfSome pages.1 (λ n. n < V.PageView.block_count view.old)) }
    ensures cause { IfErr result IsRead }
{
    let Some(n) = page else {
        return Ok((None, None));
    };
    let bytes = match draft.read(view, n) {
        Ok(bytes) => bytes,
        Err(e) => return Err(TreeError::View(e)),
    };
    Ok((
        child_at(form, bytes.bytes(), 0),
        child_at(form, bytes.bytes(), 1),
    ))
}

/// The last child of a page, where it has one.
fn last_child<V: PageView, F: PageRead>(
    form: &F,
    view: &mut V,
    draft: &Draft,
    page: Option<u32>,
) -> Result<Option<u32>, TreeError>
    requires page { IfSome page (λ n. n < V.PageView.block_count view.old) }
    requires bound { F.PageForm.blocks form.now ≡ V.PageView.block_count view.old }
    requires size { F.PageForm.size form.now ≡ 4096 }
    ensures image { V.PageView.tells → V.PageView.image view.new ≡ V.PageView.image view.old }
    ensures count_of_blocks { V.PageView.block_count view.new ≡ V.PageView.block_count view.old }
    ensures device { V.PageView.device view.new ≡ V.PageView.device view.old }
    ensures fault { CarriesFault (V.PageView.faults view.old) (V.PageView.faults view.new) result }
    ensures child { V.PageView.tells → IfOk result (λ last. (own : ℕ → Bool) → IsClosed (nodes (F.PageForm.node form.now) draft.now.pages.items (V.PageView.image view.old)) own → Has own page → Has own last) }
    ensures within { IfOk result (λ last. IfSome last (λ n. n < V.PageView.block_count view.old)) }
    ensures cause { IfErr result IsRead }
{
    let Some(n) = page else {
        return Ok(None);
    };
    let bytes = match draft.read(view, n) {
        Ok(bytes) => bytes,
        Err(e) => return Err(TreeError::View(e)),
    };
    match child_count(form, bytes.bytes()).checked_sub(1) {
        Some(last) => Ok(child_at(form, bytes.bytes(), last)),
        None => Ok(None),
    }
}

/// The pages beside each other on the next lower level, where there is one.
pub(crate) fn beside_below<V: PageView, F: PageRead>(
    form: &F,
    view: &mut V,
    draft: &Draft,
    level: &Beside,
    x: &F::Entry,
) -> Result<Option<Beside>, TreeError>
    requires within { AreBelow (V.PageView.block_count view.old) level.now }
    requires bound { F.PageForm.blocks form.now ≡ V.PageView.block_count view.old }
    requires size { F.PageForm.size form.now ≡ 4096 }
    ensures image { V.PageView.tells → V.PageView.image view.new ≡ V.PageView.image view.old }
    ensures count_of_blocks { V.PageView.block_count view.new ≡ V.PageView.block_count view.old }
    ensures device { V.PageView.device view.new ≡ V.PageView.device view.old }
    ensures fault { CarriesFault (V.PageView.faults view.old) (V.PageView.faults view.new) result }
    ensures lower { V.PageView.tells → IfOk result (λ lower. IfSome lower (λ low. (own : ℕ → Bool) → IsClosed (nodes (F.PageForm.node form.now) draft.now.pages.items (V.PageView.image view.old)) own → HasAll own level.now → HasAll own low)) }
    ensures within { IfOk result (λ lower. IfSome lower (AreBelow (V.PageView.block_count view.old))) }
    ensures cause { IfErr result IsRead }
{
    let bytes = match draft.read(view, level.here) {
        Ok(bytes) => bytes,
        Err(e) => return Err(TreeError::View(e)),
    };
    let Some(own) = children_beside(form, bytes.bytes(), x) else {
        return Ok(None);
    };
    match beside_others(form, view, draft, level, own) {
        Ok(lower) => Ok(Some(lower)),
        Err(e) => Err(e),
    }
}

/// The children of one page, and beside them those of the pages beside it.
fn beside_others<V: PageView, F: PageRead>(
    form: &F,
    view: &mut V,
    draft: &Draft,
    level: &Beside,
    children: Beside,
) -> Result<Beside, TreeError>
    requires within { AreBelow (V.PageView.block_count view.old) level.now }
    requires children { AreBelow (V.PageView.block_count view.old) children }
    requires bound { F.PageForm.blocks form.now ≡ V.PageView.block_count view.old }
    requires size { F.PageForm.size form.now ≡ 4096 }
    ensures image { V.PageView.tells → V.PageView.image view.new ≡ V.PageView.image view.old }
    ensures count_of_blocks { V.PageView.block_count view.new ≡ V.PageView.block_count view.old }
    ensures device { V.PageView.device view.new ≡ V.PageView.device view.old }
    ensures fault { CarriesFault (V.PageView.faults view.old) (V.PageView.faults view.new) result }
    ensures all { V.PageView.tells → IfOk result (λ low. (own : ℕ → Bool) → IsClosed (nodes (F.PageForm.node form.now) draft.now.pages.items (V.PageView.image view.old)) own → HasAll own level.now → HasAll own children → HasAll own low) }
    ensures within { IfOk result (AreBelow (V.PageView.block_count view.old)) }
    ensures cause { IfErr result IsRead }
{
    let before = match page_before(form, view, draft, level, children.before) {
        Ok(before) => before,
        Err(e) => return Err(e),
    };
    match pages_behind(form, view, draft, level, children.behind, children.next) {
        Ok((behind, next)) => Ok(Beside {
            before,
            here: children.here,
            behind,
            next,
        }),
        Err(e) => Err(e),
    }
}

/// The page before a child, where this is its page's own child there.
fn page_before<V: PageView, F: PageRead>(
    form: &F,
    view: &mut V,
    draft: &Draft,
    level: &Beside,
    before: Option<u32>,
) -> Result<Option<u32>, TreeError>
    requires within { AreBelow (V.PageView.block_count view.old) level.now }
    requires child { IfSome before (λ n. n < V.PageView.block_count view.old) }
    requires bound { F.PageForm.blocks form.now ≡ V.PageView.block_count view.old }
    requires size { F.PageForm.size form.now ≡ 4096 }
    ensures image { V.PageView.tells → V.PageView.image view.new ≡ V.PageView.image view.old }
    ensures count_of_blocks { V.PageView.block_count view.new ≡ V.PageView.block_count view.old }
    ensures device { V.PageView.device view.new ≡ V.PageView.device view.old }
    ensures fault { CarriesFault (V.PageView.faults view.old) (V.PageView.faults view.new) result }
    ensures all { V.PageView.tells → IfOk result (λ page. (own : ℕ → Bool) → IsClosed (nodes (F.PageForm.node form.now) draft.now.pages.items (V.PageView.image view.old)) own → HasAll own level.now → Has own before → Has own page) }
    ensures within { IfOk result (λ page. IfSome page (λ n. n < V.PageView.block_count view.old)) }
    ensures cause { IfErr result IsRead }
{
    if before.is_some() {
        return Ok(before);
    }
    last_child(form, view, draft, level.before)
}

/// The two pages behind a child, of which a page's own children are these.
fn pages_behind<V: PageView, F: PageRead>(
    form: &F,
    view: &mut V,
    draft: &Draft,
    level: &Beside,
    behind: Option<u32>,
    next: Option<u32>,
) -> Result<(Option<u32>, Option<u32>), TreeError>
    requires within { AreBelow (V.PageView.block_count view.old) level.now }
    requires children { IfSome behind (λ n. n < V.PageView.block_count view.old) × IfSome next (λ n. n < V.PageView.block_count view.old) }
    requires bound { F.PageForm.blocks form.now ≡ V.PageView.block_count view.old }
    requires size { F.PageForm.size form.now ≡ 4096 }
    ensures image { V.PageView.tells → V.PageView.image view.new ≡ V.PageView.image view.old }
    ensures count_of_blocks { V.PageView.block_count view.new ≡ V.PageView.block_count view.old }
    ensures device { V.PageView.device view.new ≡ V.PageView.device view.old }
    ensures fault { CarriesFault (V.PageView.faults view.old) (V.PageView.faults view.new) result }
    ensures all { V.PageView.tells → IfOk result (λ pages. (own : ℕ → Bool) → IsClosed (nodes (F.PageForm.node form.now) draft.now.pages.items (V.PageView.image view.old)) own → HasAll own level.now → Has own behind → Has own next
        → Has own pages.0 × Has own pages.1) }
    ensures within { IfOk result (λ pages. IfSome pages.0 (λ n. n < V.PageView.block_count view.old) × IfSome pages.1 (λ n. n < V.PageView.block_count view.old)) }
    ensures cause { IfErr result IsRead }
{
    if next.is_some() {
        return Ok((behind, next));
    }
    let (first, second) = match first_children(form, view, draft, level.behind) {
        Ok(pages) => pages,
        Err(e) => return Err(e),
    };
    if behind.is_some() {
        return Ok((behind, first));
    }
    if second.is_some() {
        return Ok((first, second));
    }
    match first_children(form, view, draft, level.next) {
        Ok((other, _)) => Ok((first, other)),
        Err(e) => Err(e),
    }
}
