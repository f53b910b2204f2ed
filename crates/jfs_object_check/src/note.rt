//! One finding.

ghost use Rattle.std.specs.Prelude.{◌≡◌, true, OnOk};
ghost use Rattle.jfs_owners.specs.findings.specs.Gains.{Gains};
ghost use Rattle.jfs_object_check.specs.Steps.{Only};

use jfs_owners::findings::{Finding, FindingKind};
use std::alloc::AllocError;

/// Adds a finding where something is so.
pub fn note_if(
    is_so: bool,
    kind: FindingKind,
    page: u32,
    value: u64,
    findings: &mut Vec<Finding>,
) -> Result<(), AllocError>
    ensures found { OnOk result (Gains (Only kind page value (is_so ≡ true)) findings.old.items findings.new.items) }
{
    if !is_so {
        return Ok(());
    }
    let finding = Finding { kind, page, value };
    match findings.push(finding) {
        Ok(()) => Ok(()),
        Err(_) => Err(AllocError),
    }
}
