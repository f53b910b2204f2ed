//! All parts of a check, one after the other.

ghost use Rattle.std.specs.Prelude.{◌≡◌, ◌≤◌, ◌*◌, length, true, Ok, IfOk};
ghost use Rattle.jfs_disk.specs.Image.{page_of};
ghost use Rattle.jfs_ranges.specs.View.{CarriesCount};
ghost use Rattle.jfs_super.specs.Rules.{blocks_of};
ghost use Rattle.jfs_super.specs.Geometry.{geometry_of, IsLayout};
ghost use Rattle.jfs_findings.specs.mount_rules.specs.Subject.{subject_of};
ghost use Rattle.jfs_findings.specs.mount_rules.specs.Steps.{IsMounted, Mounts};
ghost use Rattle.jfs_check.specs.Checked.{IsChecked};
ghost use Rattle.jfs_check.specs.Looked.{IsOfAny, Looked};

use crate::checked::Checked;
use crate::conclude::{conclude, only};
use crate::look::Look;
use crate::maps::check_maps;
use crate::whole::look_at_all;
use jfs_findings::mount_rules::{Mounted, mounted};
use jfs_link_check::check_links;
use jfs_ranges::{PageView, ViewError};
use jfs_super::Super;
use std::alloc::Global;

/// Whether the sets that were filled still have their sizes, as they do: what fills them tells of it only where the view tells its pages.
fn is_whole(look: &Look, blocks: u32, iags: u32) -> bool
    requires { iags ≤ 65536 }
    ensures owners { result ≡ true → look.now.census.owners.blocks ≡ blocks }
    ensures used { result ≡ true → length look.now.used.items ≡ 512 * iags }
{
    look.census.owners.blocks() == blocks && look.used.len() == 512 * iags as usize
}

/// All findings of a volume that a mount takes, and what is known of it.
pub(crate) fn find_all<V: PageView>(
    alloc: Global,
    view: &mut V,
    s: &Super,
    mounted: &Mounted,
) -> Result<Look, ViewError>
    requires layout { IsLayout (geometry_of s.now) }
    requires part { blocks_of s.now ≡ V.PageView.block_count view.old }
    requires mounted { IsMounted (V.PageView.block_count view.old) mounted.now }
    ensures image { V.PageView.tells → V.PageView.image view.new ≡ V.PageView.image view.old }
    ensures count_of_blocks { V.PageView.block_count view.new ≡ V.PageView.block_count view.old }
    ensures device { V.PageView.device view.new ≡ V.PageView.device view.old }
    ensures fault { CarriesCount (V.PageView.faults view.old) (V.PageView.faults view.new) result }
    ensures owned { IfOk result (λ look. look.census.owners.blocks ≡ V.PageView.block_count view.old) }
    ensures used { IfOk result (λ look. length look.used.items ≡ 512 * mounted.now.maps.inodes.iags) }
    ensures found { V.PageView.tells → IfOk result (λ look. Mounts (subject_of s.now (page_of (V.PageView.image view.old))) (Ok mounted.now) →
        Looked (subject_of s.now (page_of (V.PageView.image view.old))) (IsOfAny (subject_of s.now (page_of (V.PageView.image view.old)))) look) }
{
    let blocks = view.blocks();
    let maps = &mounted.maps;
    let places = mounted.places.as_slice();
    let mut look = look_at_all(alloc, view, s, mounted)?;
    if !is_whole(&look, blocks, maps.inodes.iags) {
        return Err(ViewError::Memory);
    }
    let Look {
        census,
        used,
        findings,
        ..
    } = &mut look;
    check_maps(
        alloc,
        view,
        s,
        maps,
        &census.owners,
        used.as_slice(),
        findings,
    )?;
    match check_links(&census.names, places, findings) {
        Ok(()) => Ok(look),
        Err(_) => Err(ViewError::Memory),
    }
}

/// The answer of a volume that a mount takes; else the rule that is broken.
pub(crate) fn examine<V: PageView>(
    alloc: Global,
    view: &mut V,
    s: &Super,
) -> Result<Checked, ViewError>
    requires layout { IsLayout (geometry_of s.now) }
    requires part { blocks_of s.now ≡ V.PageView.block_count view.old }
    ensures image { V.PageView.tells → V.PageView.image view.new ≡ V.PageView.image view.old }
    ensures count_of_blocks { V.PageView.block_count view.new ≡ V.PageView.block_count view.old }
    ensures device { V.PageView.device view.new ≡ V.PageView.device view.old }
    ensures fault { CarriesCount (V.PageView.faults view.old) (V.PageView.faults view.new) result }
    ensures checked { V.PageView.tells → IfOk result (IsChecked (subject_of s.now (page_of (V.PageView.image view.old)))) }
{
    let mounted = match mounted(alloc, view)? {
        Ok(mounted) => mounted,
        Err(bad) => {
            return match only(alloc, bad) {
                Ok(checked) => Ok(checked),
                Err(_) => Err(ViewError::Memory),
            };
        }
    };
    let look = find_all(alloc, view, s, &mounted)?;
    Ok(conclude(look, mounted.maps.inodes.iags))
}
