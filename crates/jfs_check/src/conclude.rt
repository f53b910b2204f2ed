//! The answer of a check, by what was found.

ghost use Rattle.std.specs.Prelude.{◌≡◌, ◌≤◌, ◌*◌, ◌==◌, length, ℕ, IfOk, [], ◌∷◌};
ghost use Rattle.jfs_bits.specs.Bits.{is_taken, count_below};
ghost use Rattle.jfs_link_check.specs.owners.specs.Counts.{Counts};
ghost use Rattle.jfs_findings.specs.Findings.{Rise};
ghost use Rattle.jfs_findings.specs.Gains.{HasSame};
ghost use Rattle.jfs_findings.specs.declared.finding.FindingKind.TheVariants.{Aggregate};

use crate::checked::Checked;
use crate::look::Look;
use jfs_findings::mount_rules::BadMount;
use jfs_findings::{Finding, FindingKind, put_in_order};
use jfs_link_check::owners::count_taken;
use std::alloc::{AllocError, Global};

/// All findings in order, and what the owners of blocks and the inodes in use amount to.
pub(crate) fn conclude(look: Look, iags: u32) -> Checked
    requires few { iags ≤ 65536 }
    requires size { length look.used.items ≡ 512 * iags }
    ensures order { Rise result.findings.items }
    ensures same { HasSame look.findings.items result.findings.items }
    ensures free { (count : ℕ → ℕ) → Counts look.census.owners count → result.free ≡ count_below look.census.owners.blocks (λ b. count b == 0) }
    ensures inodes { result.inodes ≡ count_below (4096 * iags) (is_taken look.used.items) }
{
    let Look {
        alloc: _,
        census,
        used,
        mut findings,
        kept: _,
    } = look;
    let free = census.owners.free();
    let inodes = count_taken(used.as_slice(), 4096 * iags);
    put_in_order(&mut findings);
    Checked {
        findings,
        free,
        inodes,
    }
}

/// A rule that a mount looks at is broken: it is the only finding, and nothing is counted.
pub(crate) fn only(alloc: Global, bad: BadMount) -> Result<Checked, AllocError>
    ensures { IfOk result (λ c. c.findings.items ≡ record { kind = Aggregate; page = bad.page; value = bad.value } ∷ []) }
{
    let mut findings = Vec::new(alloc);
    match findings.push(Finding {
        kind: FindingKind::Aggregate,
        page: bad.page,
        value: bad.value,
    }) {
        Ok(()) => Ok(Checked {
            findings,
            free: 0,
            inodes: 0,
        }),
        Err(_) => Err(AllocError),
    }
}
