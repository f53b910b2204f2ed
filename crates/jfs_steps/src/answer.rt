//! Refusals that come from a directory's tree.

ghost use Rattle.std.specs.Prelude.{◌≡◌, Err};
ghost use Rattle.jfs_disk.specs.declared.disk.Fault.{Fault};
ghost use Rattle.jfs_way.specs.dtree.specs.Spells.{CarriesDt};
ghost use Rattle.jfs_way.specs.Answer.{CarriesCause, names_refusal};

use jfs_ranges::ViewError;
use jfs_way::dtree::DtError;
use jfs_way::page_tree::NO_PAGE;
use jfs_way::plain::Refusal;

/// A call on the tree of directory `dir` failed, whose inode stands on this page: a root stands there too.
pub fn from_names(dir: u32, page: u32, e: DtError) -> Refusal
    ensures count { (before now : Fault) → CarriesDt {T = Unit {0}} before now (Err e) → CarriesCause before now result }
    ensures value { result ≡ names_refusal dir page e }
{
    match e {
        DtError::View(ViewError::Read(fault)) => Refusal::IoFault { fault },
        DtError::View(ViewError::Memory) => Refusal::OutOfMemory,
        DtError::Bad { page: bad, rule } => Refusal::Damaged {
            page: if bad == NO_PAGE { page } else { bad },
            rule,
        },
        DtError::Exists => Refusal::Exists,
        DtError::Missing => Refusal::NotFound,
        DtError::TooDeep => Refusal::TooDeep { inode: dir },
    }
}
