//! The rules of a page of a directory tree.

ghost use Rattle.std.specs.Prelude.{◌≡◌, ◌<◌, ◌≤◌, ◌+◌, ◌*◌, ◌-◌, ◌%◌, ℕ, length, IfOk, IfErr, true, false};
ghost use Rattle.jfs_bits.specs.Broken.{AllHold, IsFirstBroken};
ghost use Rattle.jfs_dtpage.specs.Form.{bytes_of, flag_of, head_of};
ghost use Rattle.jfs_dtpage.specs.Order.{IsRising};
ghost use Rattle.jfs_dtpage.specs.Page.{FlagFits, SlotsFit, ChainsFit, names_of, IsDtPage, Holds, dt_rules};

use crate::entry::{count_of, is_leaf, slot_at};
use crate::follow::{chains_fit, free_fits};
use crate::head::{BadDt, DtForm, DtHead, Place};
use crate::left::usable_slots;
use crate::order::is_before;
use jfs_bits::{Rule, get_pxd, get_u8, get_u32, get_u64};

/// The header of a page that breaks no rule of its form, else the first rule that it breaks: `flag`, `slots`, `chain`, `free`, `order`.
pub fn dt_check(bytes: &[u8], form: DtForm) -> Result<DtHead, BadDt>
    requires { length bytes.now ≡ bytes_of form }
    ensures sound { IfOk result (λ head. IsDtPage form bytes.now × (head ≡ head_of form bytes.now)) }
    ensures broken { IfErr result (λ bad. IsFirstBroken (Holds form bytes.now) dt_rules bad.rule) }
{
    if !flag_fits(form, get_u8(bytes, 16)) {
        return Err(BadDt { rule: Rule::Flag });
    }
    if !slots_fit(bytes, form) {
        return Err(BadDt { rule: Rule::Slots });
    }
    let mut left = usable_slots(bytes, form);
    if !chains_fit(bytes, form, &mut left) {
        return Err(BadDt { rule: Rule::Chain });
    }
    if !free_fits(bytes, form, &mut left) {
        return Err(BadDt { rule: Rule::Free });
    }
    if !is_rising(bytes, form) {
        return Err(BadDt { rule: Rule::Order });
    }
    Ok(read_head(bytes, form))
}

fn flag_fits(form: DtForm, flag: u8) -> bool
    ensures fits { result ≡ true → FlagFits form (flag % 8) }
    ensures breaks { result ≡ false → ¬ FlagFits form (flag % 8) }
{
    let low = flag % 8;
    match form {
        DtForm::Root => low == 3 || low == 5,
        DtForm::Full => low == 2 || low == 4,
    }
}

fn slots_fit(bytes: &[u8], form: DtForm) -> bool
    requires { length bytes.now ≡ bytes_of form }
    ensures fits { result ≡ true → SlotsFit form bytes.now }
    ensures breaks { result ≡ false → ¬ SlotsFit form bytes.now }
{
    let entries = get_u8(bytes, 17);
    let free = get_u8(bytes, 18);
    match form {
        DtForm::Root => entries <= 8 && free <= 8,
        DtForm::Full => {
            let table = get_u8(bytes, 21);
            get_u8(bytes, 20) == 128 && 1 <= table && table <= 124 && entries <= 123 && free <= 123
        }
    }
}

fn is_rising(bytes: &[u8], form: DtForm) -> bool
    requires size { length bytes.now ≡ bytes_of form }
    requires slots { SlotsFit form bytes.now }
    requires chains { ChainsFit form bytes.now }
    ensures rises { result ≡ true → IsRising (names_of form bytes.now) }
    ensures breaks { result ≡ false → ¬ (IsRising (names_of form bytes.now)) }
{
    let leaf = is_leaf(bytes);
    for place in 1..count_of(bytes) {
        let before = slot_at(bytes, form, place - 1);
        if !is_before(bytes, leaf, before, slot_at(bytes, form, place)) {
            return false;
        }
    }
    true
}

fn read_head(bytes: &[u8], form: DtForm) -> DtHead
    requires { length bytes.now ≡ bytes_of form }
    ensures { result ≡ head_of form bytes.now }
{
    let place = match form {
        DtForm::Root => Place::InInode {
            idotdot: get_u32(bytes, 20),
        },
        DtForm::Full => Place::OnVolume {
            next: get_u64(bytes, 0),
            prev: get_u64(bytes, 8),
            maxslot: get_u8(bytes, 20),
            stblindex: get_u8(bytes, 21),
            at: get_pxd(bytes, 24),
        },
    };
    DtHead {
        flag: get_u8(bytes, 16),
        nextindex: get_u8(bytes, 17),
        freecnt: get_u8(bytes, 18),
        freelist: get_u8(bytes, 19),
        place,
    }
}
