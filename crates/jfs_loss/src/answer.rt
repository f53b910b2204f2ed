//! Refusals that come from trees of pages.

ghost use Rattle.std.specs.Prelude.{◌≡◌, Err};
ghost use Rattle.jfs_disk.specs.declared.disk.Fault.{Fault};
ghost use Rattle.jfs_ranges.specs.View.{CarriesCount};
ghost use Rattle.jfs_lead_steps.specs.dtree.specs.Spells.{CarriesDt};
ghost use Rattle.jfs_lead_steps.specs.xtree.specs.Spells.{CarriesXt};
ghost use Rattle.jfs_steps.specs.way.specs.Answer.{CarriesCause, view_refusal, names_refusal, at_root};
ghost use Rattle.jfs_loss.specs.Causes.{extents_refusal};

use jfs_lead_steps::dtree::DtError;
use jfs_lead_steps::page_tree::NO_PAGE;
use jfs_lead_steps::xtree::XtError;
use jfs_plain::Refusal;
use jfs_ranges::ViewError;

/// A page could not be read, or memory ran out.
fn from_view(e: ViewError) -> Refusal
    ensures count { (before now : Fault) → CarriesCount {T = Unit {0}} before now (Err e) → CarriesCause before now result }
    ensures value { result ≡ view_refusal e }
{
    match e {
        ViewError::Read(fault) => Refusal::IoFault { fault },
        ViewError::Memory => Refusal::OutOfMemory,
    }
}

/// A root stands on the page of its inode.
fn at_root(page: u32, bad: u32) -> u32
    ensures { result ≡ at_root page bad }
{
    if bad == NO_PAGE { page } else { bad }
}

/// A call on the tree of directory `dir` failed, whose inode stands on this page.
pub(crate) fn from_names(dir: u32, page: u32, e: DtError) -> Refusal
    ensures count { (before now : Fault) → CarriesDt {T = Unit {0}} before now (Err e) → CarriesCause before now result }
    ensures value { result ≡ names_refusal dir page e }
{
    match e {
        DtError::View(e) => from_view(e),
        DtError::Bad { page: bad, rule } => Refusal::Damaged {
            page: at_root(page, bad),
            rule,
        },
        DtError::Exists => Refusal::Exists,
        DtError::Missing => Refusal::NotFound,
        DtError::TooDeep => Refusal::TooDeep { inode: dir },
    }
}

/// A call on the extents of an object failed, whose inode stands on this page.
pub(crate) fn from_extents(page: u32, e: XtError) -> Refusal
    ensures count { (before now : Fault) → CarriesXt {T = Unit {0}} before now (Err e) → CarriesCause before now result }
    ensures value { result ≡ extents_refusal page e }
{
    match e {
        XtError::View(e) => from_view(e),
        XtError::Bad { page: bad, rule } => Refusal::Damaged {
            page: at_root(page, bad),
            rule,
        },
    }
}
