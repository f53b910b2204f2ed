//! The attributes of an object.

ghost use Rattle.std.specs.Prelude.{◌≡◌, OnOk};
ghost use Rattle.jfs_bits.specs.Extent.{FitsDxd};
ghost use Rattle.jfs_owners.specs.findings.specs.Gains.{Gains};
ghost use Rattle.jfs_owners.specs.findings.specs.Inodes.{attribute_blocks};
ghost use Rattle.jfs_object_check.specs.Steps.{IsBehind};

use crate::note::note_if;
use jfs_bits::Dxd;
use jfs_owners::findings::{Finding, FindingKind};
use std::alloc::AllocError;

/// The number of blocks of a run of attributes.
pub(crate) fn attribute_blocks(d: &Dxd) -> u32
    ensures { result ≡ attribute_blocks d.now }
{
    let flag = d.flag;
    if flag & Dxd::EXTENT == Dxd::EXTENT {
        d.at.len
    } else {
        0
    }
}

/// A run of attributes that reaches behind so many blocks: a finding for its first block there.
pub(crate) fn check_run(
    blocks: u32,
    at: u32,
    d: &Dxd,
    findings: &mut Vec<Finding>,
) -> Result<(), AllocError>
    ensures found { FitsDxd d.now → OnOk result (Gains (IsBehind blocks at d.now) findings.old.items findings.new.items) }
{
    let addr = d.at.addr;
    let first = addr.max(u64::from(blocks));
    let end = addr.saturating_add(u64::from(attribute_blocks(d)));
    note_if(first < end, FindingKind::Outside, at, first, findings)?;
    Ok(())
}
