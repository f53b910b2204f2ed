//! What each block of a file holds that a write changes.

ghost use Rattle.std.specs.Prelude.{◌≡◌, ◌<◌, ◌^◌, ◌++◌, true, OnOk, IfErr};
ghost use Rattle.jfs_disk.specs.Image.{page_of};
ghost use Rattle.jfs_data_steps.specs.way.specs.Answer.{is_open, Carries};
ghost use Rattle.jfs_data_steps.specs.After.{AreWholePages};
ghost use Rattle.jfs_write_pages.specs.Spots.{AllSpots};
ghost use Rattle.jfs_write_pages.specs.Pages.{told, pages_for};

use crate::page::{Change, push_page};
use crate::spot::Spot;
use jfs_data_steps::DataList;
use jfs_plain::Refusal;
use jfs_ranges::PageView;

/// Pushes these blocks of a file, each with what it is to hold.
pub fn push_pages<V: PageView>(
    view: &mut V,
    spots: &[Spot],
    change: &Change,
    out: &mut DataList,
) -> Result<(), Refusal>
    requires { AllSpots (V.PageView.block_count view.old) spots.now }
    ensures image { V.PageView.tells → V.PageView.image view.new ≡ V.PageView.image view.old }
    ensures count_of_blocks { V.PageView.block_count view.new ≡ V.PageView.block_count view.old }
    ensures device { V.PageView.device view.new ≡ V.PageView.device view.old }
    ensures fault { Carries (V.PageView.faults view.old) (V.PageView.faults view.new) result }
    ensures only { IfErr result (λ why. is_open why ≡ true) }
    ensures whole { AreWholePages out.old → OnOk result (AreWholePages out.new) }
    ensures pushed { V.PageView.tells → OnOk result (told out.new ≡ told out.old ++ pages_for (page_of (V.PageView.image view.old)) change.now.size change.now.offset change.now.bytes.now spots.now) }
{
    for spot in spots {
        match push_page(view, spot, change, out) {
            Ok(()) => {}
            Err(e) => return Err(e),
        }
    }
    Ok(())
}
