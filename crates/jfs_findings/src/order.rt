//! The order of findings.

ghost use Rattle.jfs_findings.specs.Findings.{Rise};
ghost use Rattle.jfs_findings.specs.Gains.{HasSame, IsCondensed};

use crate::finding::Finding;

/// Puts findings in order, by kind, then by page, then by value, and each of them once: the list of a checker. It takes no memory.
pub fn put_in_order(findings: &mut Vec<Finding>)
    ensures order { Rise findings.new.items }
    ensures same { HasSame findings.old.items findings.new.items }
{
    findings.sort_unstable();
    findings.dedup();
}

#[tactic(auto, using(crate::proofs::Condensed::left_alone))]
/// Keeps few findings more than once: once there are twice as many as were `kept` at the last time, and some more, each of them stands once again. So those that
/// are found over and over take little memory. It takes none itself.
pub fn condense(findings: &mut Vec<Finding>, kept: &mut usize)
    ensures same { HasSame findings.old.items findings.new.items }
    ensures few { IsCondensed findings.old.items kept.old findings.new.items kept.new }
{
    if findings.len() / 2 > *kept && findings.len() > 1024 {
        put_in_order(findings);
        *kept = findings.len();
    }
}
