//! The pages in which an edit puts bytes.

ghost use Rattle.std.specs.Prelude.{◌≡◌, ◌&&◌, ◌^◌, ◌<◌, ◌+◌, ◌-◌, ◌*◌, ℕ, nat_le, nat_lt};
ghost use Rattle.jfs_ranges.specs.Apply.{touches_edit};

use crate::edit::Edit;
use crate::put::place_of_line;

/// The pages from `first` on, before `end`.
#[derive(Clone, Copy, PartialEq, Eq, Debug)]
pub struct PageRange {
    pub first: u64,
    pub end: u64,
}

impl Edit {
    /// The pages in which the edit puts a byte.
    pub fn pages(&self) -> PageRange
        ensures { (p : ℕ) → touches_edit p self.now ≡ (nat_le result.first p && nat_lt p result.end) }
    {
        match self {
            Edit::Lines {
                page,
                kind,
                first,
                bytes,
            } => pages_from(place_of_line(*page, *kind, *first), bytes.len()),
            Edit::NoRedo { .. } | Edit::Alloc(_) | Edit::Free(_) => PageRange { first: 0, end: 0 },
        }
    }
}

/// The pages in which so many bytes from a place of the disk on lie.
fn pages_from(at: u64, count: usize) -> PageRange
    requires { at < 2 ^ 45 }
    ensures { (p : ℕ) → (nat_lt at (4096 * p + 4096) && nat_lt (4096 * p - at) count) ≡ (nat_le result.first p && nat_lt p result.end) }
{
    if count == 0 {
        return PageRange { first: 0, end: 0 };
    }
    let last = count as u64 - 1;
    PageRange {
        first: at / 4096,
        end: at / 4096 + last / 4096 + (at % 4096 + last % 4096) / 4096 + 1,
    }
}
