//! Refusals that come from below.

ghost use Rattle.std.specs.Prelude.{◌≡◌, Err};
ghost use Rattle.jfs_disk.specs.declared.disk.Fault.{Fault};
ghost use Rattle.jfs_ranges.specs.View.{CarriesCount};
ghost use Rattle.jfs_reader.specs.dtree.specs.Spells.{CarriesDt};
ghost use Rattle.jfs_way.specs.Answer.{CarriesCause, view_refusal, names_refusal};

use jfs_ranges::ViewError;
use jfs_reader::dtree::DtError;
use jfs_reader::plain::Refusal;
use jfs_tree::NO_PAGE;

/// A page could not be read, or memory ran out.
pub(crate) fn from_view(e: ViewError) -> Refusal
    ensures count { (before now : Fault) → CarriesCount {T = Unit {0}} before now (Err e) → CarriesCause before now result }
    ensures value { result ≡ view_refusal e }
{
    match e {
        ViewError::Read(fault) => Refusal::IoFault { fault },
        ViewError::Memory => Refusal::OutOfMemory,
    }
}

/// A call on the tree of directory `dir` failed, whose inode stands on this page.
pub(crate) fn from_names(dir: u32, page: u32, e: DtError) -> Refusal
    ensures count { (before now : Fault) → CarriesDt {T = Unit {0}} before now (Err e) → CarriesCause before now result }
    ensures value { result ≡ names_refusal dir page e }
{
    match e {
        DtError::View(e) => from_view(e),
        DtError::Bad { page: bad, rule } => Refusal::Damaged {
            page: if bad == NO_PAGE { page } else { bad },
            rule,
        },
        DtError::Exists => Refusal::Exists,
        DtError::Missing => Refusal::NotFound,
        DtError::TooDeep => Refusal::TooDeep { inode: dir },
    }
}
