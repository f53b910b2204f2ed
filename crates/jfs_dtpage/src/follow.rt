//! The chains of a page, followed slot by slot.

ghost use Rattle.std.specs.Prelude.{◌≡◌, ◌⊎◌, ◌<◌, ◌≤◌, ◌+◌, ◌*◌, ℕ, true, false, MatchOption, length};
ghost use Rattle.jfs_dtpage.specs.Form.{bytes_of, is_leaf};
ghost use Rattle.jfs_dtpage.specs.Slots.{follow, behind, times};
ghost use Rattle.jfs_dtpage.specs.Met.{left_of, HasMet, IsTaken};
ghost use Rattle.jfs_dtpage.specs.Page.{usable, chain_of, Ends, taken_of, SlotsFit, ChainsFit, FreeFits};

use crate::entry::{count_of, first_free, free_of, is_leaf, slot_at};
use crate::head::DtForm;
use crate::left::{Left, meet, none_left};
use crate::read::{length_of, link_of, more_slots, next_of};
use crate::write::END;

/// Whether each entry's chain is as long as its name asks, and no slot is in two of them.
pub fn chains_fit(bytes: &[u8], form: DtForm, left: &mut Left) -> bool
    requires size { length bytes.now ≡ bytes_of form }
    requires slots { SlotsFit form bytes.now }
    requires first { (slot : ℕ) → left_of left.old slot ≡ usable form bytes.now slot }
    ensures yes { result ≡ true → ChainsFit form bytes.now × ((slot : ℕ) → left_of left.new slot + times slot (taken_of form bytes.now) ≡ usable form bytes.now slot) }
    ensures no { result ≡ false → ¬ (ChainsFit form bytes.now) }
{
    let leaf = is_leaf(bytes);
    for place in 0..count_of(bytes) {
        if !entry_fits(bytes, leaf, left, slot_at(bytes, form, place)) {
            return false;
        }
    }
    true
}

/// Whether the free chain has as many slots as the header says, and each slot is in one chain.
pub fn free_fits(bytes: &[u8], form: DtForm, left: &mut Left) -> bool
    requires size { length bytes.now ≡ bytes_of form }
    requires slots { SlotsFit form bytes.now }
    requires taken { (slot : ℕ) → left_of left.old slot + times slot (taken_of form bytes.now) ≡ usable form bytes.now slot }
    ensures yes { result ≡ true → FreeFits form bytes.now }
    ensures no { result ≡ false → ¬ (FreeFits form bytes.now) }
{
    match meet_chain(bytes, left, first_free(bytes), usize::from(free_of(bytes))) {
        Some(behind) => behind == END && none_left(left),
        None => false,
    }
}

/// Whether an entry's chain ends where its name does, of slots that were left.
fn entry_fits(bytes: &[u8], leaf: bool, left: &mut Left, slot: u8) -> bool
    requires { (k : ℕ) → 1 ≤ left_of left.old k → 32 * k + 32 ≤ length bytes.now }
    ensures yes { result ≡ true → Ends leaf bytes.now slot × HasMet left.old left.new (chain_of leaf bytes.now slot) }
    ensures no { result ≡ false → (¬ (Ends leaf bytes.now slot)) ⊎ IsTaken left.old (chain_of leaf bytes.now slot) }
{
    if !meet(left, slot) {
        return false;
    }
    let more = more_slots(leaf, usize::from(length_of(bytes, leaf, slot)));
    match meet_chain(bytes, left, link_of(bytes, leaf, slot), more) {
        Some(behind) => behind == END,
        None => false,
    }
}

/// Meets so many slots of a chain; what is named behind them, `None` where one wasn't left.
fn meet_chain(bytes: &[u8], left: &mut Left, first: u8, count: usize) -> Option<u8>
    requires { (k : ℕ) → 1 ≤ left_of left.old k → 32 * k + 32 ≤ length bytes.now }
    ensures { MatchOption result (IsTaken left.old (follow bytes.now first count))
        (λ after. (after ≡ behind bytes.now first count) × HasMet left.old left.new (follow bytes.now first count)) }
{
    let mut slot = first;
    let mut more = count;
    while more > 0 {
        if !meet(left, slot) {
            return None;
        }
        slot = next_of(bytes, slot);
        more -= 1;
    }
    Some(slot)
}
