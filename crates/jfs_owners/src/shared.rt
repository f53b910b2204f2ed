//! Blocks with two owners.

ghost use Rattle.std.specs.Prelude.{◌≡◌, ◌+◌, ◌*◌, ◌/◌, ◌%◌, ◌<◌, ◌≤◌, length, min, IfOk};
ghost use Rattle.jfs_findings.specs.objects.specs.Owners.{owners};
ghost use Rattle.jfs_findings.specs.mount_rules.specs.Subject.{Subject, blocks, volume};
ghost use Rattle.jfs_findings.specs.Gains.{Gains};
ghost use Rattle.jfs_owners.specs.Counts.{Counts};
ghost use Rattle.jfs_owners.specs.Shared.{IsMarked, SaysShared};

use crate::owners::Owners;
use jfs_bits::{bit, get_u32};
use jfs_findings::{Finding, FindingKind};
use std::alloc::AllocError;

impl Owners {
    /// Appends a finding for each block that has two owners or more, and none for another. `Err` is want of memory; then some may be appended.
    pub fn find_shared(&self, findings: &mut Vec<Finding>) -> Result<(), AllocError>
        ensures shared { IfOk result (λ it. (s : Subject) → self.now.blocks ≡ blocks s → Counts self.now (owners s.readers (volume s)) →
            Gains (SaysShared s) findings.old.items findings.new.items) }
        ensures marked { IfOk result (λ it. Gains (IsMarked self.now.shared 0 self.now.blocks) findings.old.items findings.new.items) }
    {
        let blocks = self.blocks;
        find_marked(self.shared.as_slice(), blocks, findings)
    }
}

/// Appends a finding for each of so many blocks whose bit is set.
fn find_marked(set: &[u8], blocks: u32, findings: &mut Vec<Finding>) -> Result<(), AllocError>
    requires words { length set.now % 4 ≡ 0 }
    requires size { blocks ≤ 8 * length set.now }
    ensures { IfOk result (λ it. Gains (IsMarked set.now 0 blocks) findings.old.items findings.new.items) }
{
    for w in 0..blocks.div_ceil(32) {
        let first = 32 * w;
        // most words have none
        if get_u32(set, 4 * w as usize) != 0 {
            find_from(set, first, (blocks - first).min(32), findings)?;
        }
    }
    Ok(())
}

/// Appends a finding for each of the `n` blocks from `first` on whose bit is set.
fn find_from(set: &[u8], first: u32, n: u32, findings: &mut Vec<Finding>) -> Result<(), AllocError>
    requires words { length set.now % 4 ≡ 0 }
    requires size { first + n ≤ 8 * length set.now }
    requires fits { first + n < 4294967296 }
    ensures { IfOk result (λ it. Gains (IsMarked set.now first (first + n)) findings.old.items findings.new.items) }
{
    for b in first..first + n {
        if bit(set, b) {
            findings.push(Finding {
                kind: FindingKind::Shared,
                page: b,
                value: u64::from(b),
            })?;
        }
    }
    Ok(())
}
