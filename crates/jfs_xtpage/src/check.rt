//! The rules of a page of an extent tree.

ghost use Rattle.std.specs.Prelude.{◌≡◌, ◌<◌, ◌≤◌, ◌+◌, ◌*◌, ◌-◌, ◌%◌, ◌^◌, ℕ, length, IfOk, IfErr, true, false};
ghost use Rattle.jfs_bits.specs.Broken.{AllHold, IsFirstBroken};
ghost use Rattle.jfs_xtpage.specs.Page.{bytes_of, head_of, entry_of, end_of, FlagFits, MaxFits, IsRising, IsXtPage, Holds, xt_rules};

use crate::head::{BadXt, XtForm, XtHead};
use jfs_bits::{Rule, Xad, get_pxd, get_u8, get_u16, get_u64, get_xad};

/// The header of a page that breaks no rule of its form, else the first rule that it breaks: `flag`, `max`, `count`, `order`.
pub fn xt_check(bytes: &[u8], form: XtForm) -> Result<XtHead, BadXt>
    requires { length bytes.now ≡ bytes_of form }
    ensures sound { IfOk result (λ head. IsXtPage form bytes.now × (head ≡ head_of bytes.now)) }
    ensures broken { IfErr result (λ bad. IsFirstBroken (Holds form bytes.now) xt_rules bad.rule) }
{
    let head = read_head(bytes);
    if !flag_fits(form, head.flag) {
        return Err(BadXt { rule: Rule::Flag });
    }
    if !max_fits(form, head.maxentry) {
        return Err(BadXt { rule: Rule::Max });
    }
    if head.nextindex < 2 || head.nextindex > head.maxentry {
        return Err(BadXt { rule: Rule::Count });
    }
    if !is_rising(bytes, usize::from(head.nextindex - 2)) {
        return Err(BadXt { rule: Rule::Order });
    }
    Ok(head)
}

fn read_head(bytes: &[u8]) -> XtHead
    requires { 32 ≤ length bytes.now }
    ensures { result ≡ head_of bytes.now }
{
    XtHead {
        next: get_u64(bytes, 0),
        prev: get_u64(bytes, 8),
        flag: get_u8(bytes, 16),
        nextindex: get_u16(bytes, 18),
        maxentry: get_u16(bytes, 20),
        at: get_pxd(bytes, 24),
    }
}

fn flag_fits(form: XtForm, flag: u8) -> bool
    ensures fits { result ≡ true → FlagFits form (flag % 8) }
    ensures breaks { result ≡ false → ¬ FlagFits form (flag % 8) }
{
    let low = flag % 8;
    match form {
        XtForm::Root => low == 3 || low == 5,
        XtForm::Full => low == 2 || low == 4,
        XtForm::Small => low == 3 || low == 5,
    }
}

fn max_fits(form: XtForm, most: u16) -> bool
    ensures fits { result ≡ true → MaxFits form most }
    ensures breaks { result ≡ false → ¬ MaxFits form most }
{
    match form {
        XtForm::Root => most == 10 || most == 18,
        XtForm::Full => most == 256,
        XtForm::Small => most == 6,
    }
}

fn is_rising(bytes: &[u8], count: usize) -> bool
    requires { 32 + 16 * count ≤ length bytes.now }
    ensures rises { result ≡ true → IsRising bytes.now count }
    ensures breaks { result ≡ false → ¬ IsRising bytes.now count }
{
    for i in 1..count {
        let left = get_xad(bytes, 32 + 16 * (i - 1));
        let right = get_xad(bytes, 32 + 16 * i);
        if end_of(&left) > right.offset {
            return false;
        }
    }
    true
}

/// The first block of the file behind an extent.
fn end_of(x: &Xad) -> u64
    requires { (x.now.offset < 2 ^ 40) × (x.now.at.len < 2 ^ 24) }
    ensures { result ≡ end_of x.now }
{
    if x.at.len == 0 {
        x.offset + 1
    } else {
        x.offset + u64::from(x.at.len)
    }
}
