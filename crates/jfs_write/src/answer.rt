//! Why bytes aren't put into a file.

ghost use Rattle.std.specs.Prelude.{◌≡◌, Err};
ghost use Rattle.jfs_disk.specs.declared.disk.Fault.{Fault};
ghost use Rattle.jfs_ranges.specs.View.{CarriesCount};
ghost use Rattle.jfs_xtree.specs.Spells.{CarriesXt};
ghost use Rattle.jfs_read.specs.way.specs.Answer.{CarriesCause, view_refusal};
ghost use Rattle.jfs_read.specs.Read.{extents_refusal};

use jfs_plain::Refusal;
use jfs_ranges::ViewError;
use jfs_tree::NO_PAGE;
use jfs_xtree::XtError;

/// Why bytes aren't put into a file.
#[derive(Clone, Copy, PartialEq, Eq, Debug)]
pub enum Stop {
    /// The call is refused.
    Refused(Refusal),
    /// Busy blocks stand between the call and its blocks.
    NeedsLog,
}

/// A page could not be read, or memory ran out.
fn from_view(e: ViewError) -> Refusal
    ensures count { (before now : Fault) → CarriesCount {T = Unit {0}} before now (Err e) → CarriesCause before now result }
    ensures value { result ≡ view_refusal e }
{
    match e {
        ViewError::Read(fault) => Refusal::IoFault { fault },
        ViewError::Memory => Refusal::OutOfMemory,
    }
}

/// A call on the extents of a file failed, whose inode stands on this page.
pub(crate) fn from_extents(page: u32, e: XtError) -> Refusal
    ensures count { (before now : Fault) → CarriesXt {T = Unit {0}} before now (Err e) → CarriesCause before now result }
    ensures value { result ≡ extents_refusal page e }
{
    match e {
        XtError::View(e) => from_view(e),
        XtError::Bad { page: bad, rule } => Refusal::Damaged {
            page: if bad == NO_PAGE { page } else { bad },
            rule,
        },
    }
}
