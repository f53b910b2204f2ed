//! Chains put to the front of the free chain.

ghost use Rattle.std.specs.Prelude.{◌≡◌, ◌<◌, ◌≤◌, ◌+◌, ◌*◌, ℕ, suc, length};
ghost use Rattle.jfs_dtpage.specs.Form.{more_slots};
ghost use Rattle.jfs_dtpage.specs.Slots.{follow, behind, times, AreWithin, KeptBut};
ghost use Rattle.jfs_dtpage.specs.Page.{length_of, chain_of, Ends};

use crate::read::{length_of, link_of, more_slots, next_of, start_of};
use crate::write::put_byte;

/// Makes an entry's slots free slots, the last of which names the slot behind them.
pub fn release(bytes: &mut [u8], leaf: bool, slot: u8, after: u8)
    requires within { AreWithin bytes.old (chain_of leaf bytes.old slot) }
    requires once { (k : ℕ) → times k (chain_of leaf bytes.old slot) ≤ 1 }
    ensures chain { follow bytes.new slot (suc (more_slots leaf (length_of leaf bytes.old slot))) ≡ chain_of leaf bytes.old slot }
    ensures ends { behind bytes.new slot (suc (more_slots leaf (length_of leaf bytes.old slot))) ≡ after }
    ensures kept { KeptBut (chain_of leaf bytes.old slot) bytes.old bytes.new }
{
    let link = link_of(bytes, leaf, slot);
    let more = more_slots(leaf, usize::from(length_of(bytes, leaf, slot)));
    put_byte(bytes, start_of(slot), link);
    name_last(bytes, slot, more, after);
}

/// Makes the last slot of a chain name another.
fn name_last(bytes: &mut [u8], slot: u8, more: usize, after: u8)
    requires within { AreWithin bytes.old (follow bytes.old slot (suc more)) }
    requires once { (k : ℕ) → times k (follow bytes.old slot (suc more)) ≤ 1 }
    ensures chain { follow bytes.new slot (suc more) ≡ follow bytes.old slot (suc more) }
    ensures ends { behind bytes.new slot (suc more) ≡ after }
    ensures kept { KeptBut (follow bytes.old slot (suc more)) bytes.old bytes.new }
{
    if more == 0 {
        put_byte(bytes, start_of(slot), after);
        return;
    }
    let next = next_of(bytes, slot);
    name_last(bytes, next, more - 1, after);
}
