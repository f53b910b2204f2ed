//! The slots that no chain has met so far.

ghost use Rattle.std.specs.Prelude.{◌≡◌, ◌<◌, ◌≤◌, ◌+◌, ◌*◌, ℕ, true, false, [], ◌∷◌, length};
ghost use Rattle.jfs_dtpage.specs.Form.{bytes_of, is_usable};
ghost use Rattle.jfs_dtpage.specs.Met.{left_of, HasMet};
ghost use Rattle.jfs_dtpage.specs.Page.{usable};

use crate::head::DtForm;
use jfs_bits::get_u8;

/// Which slots are left.
pub type Left = [bool; 128];

/// At first each slot that entries may have.
pub fn usable_slots(bytes: &[u8], form: DtForm) -> Left
    requires { length bytes.now ≡ bytes_of form }
    ensures { (slot : ℕ) → left_of result slot ≡ usable form bytes.now slot }
{
    let mut left = [false; 128];
    for (slot, is_left) in left.iter_mut().enumerate() {
        *is_left = is_usable(bytes, form, slot);
    }
    left
}

fn is_usable(bytes: &[u8], form: DtForm, slot: usize) -> bool
    requires { length bytes.now ≡ bytes_of form }
    ensures { result ≡ is_usable form bytes.now slot }
{
    match form {
        DtForm::Root => 1 <= slot && slot < 9,
        DtForm::Full => {
            let table = usize::from(get_u8(bytes, 21));
            1 <= slot && slot < 128 && (slot < table || table + 4 <= slot)
        }
    }
}

/// Meets a slot; whether it was left.
pub fn meet(left: &mut Left, slot: u8) -> bool
    ensures yes { result ≡ true → (left_of left.old slot ≡ 1) × HasMet left.old left.new (slot ∷ []) }
    ensures no { result ≡ false → left_of left.old slot ≡ 0 }
{
    let place = usize::from(slot);
    if place >= 128 || !left[place] {
        return false;
    }
    left[place] = false;
    true
}

/// Whether each slot was met.
pub fn none_left(left: &Left) -> bool
    ensures yes { result ≡ true → (slot : ℕ) → left_of left.now slot ≡ 0 }
    ensures no { result ≡ false → (slot : ℕ) × (left_of left.now slot ≡ 1) }
{
    for slot in 0..128 {
        if left[slot] {
            return false;
        }
    }
    true
}
