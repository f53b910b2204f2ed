//! Names put into a page, and taken out.

ghost use Rattle.std.specs.Prelude.{◌≡◌, ◌≤◌, length, true};
ghost use Rattle.jfs_dtpage.specs.declared.head.DtForm.TheVariants.{Root};
ghost use Rattle.jfs_dtpage.specs.Form.{bytes_of, is_leaf};
ghost use Rattle.jfs_dtpage.specs.Page.{IsDtPage};

use jfs_dtpage::{DtEntry, DtForm, PageFull, dt_find, dt_insert, dt_remove};

/// Puts a name into a leaf; whether it wasn't there.
pub fn add(bytes: &mut [u8], form: DtForm, name: &[u16], inode: u32) -> Result<bool, PageFull>
    requires size { length bytes.old ≡ bytes_of form }
    requires page { IsDtPage form bytes.old }
    requires leaf { is_leaf bytes.old ≡ true }
    requires name { length name.now ≤ 255 }
    ensures page { IsDtPage form bytes.new }
    ensures leaf { is_leaf bytes.new ≡ true }
{
    match dt_find(bytes, form, name) {
        Ok(_) => Ok(false),
        Err(place) => match dt_insert(bytes, form, place, DtEntry::Leaf { inode, name }) {
            Ok(()) => Ok(true),
            Err(full) => Err(full),
        },
    }
}

/// Takes a name out of a leaf; whether it was there.
pub fn take(bytes: &mut [u8], form: DtForm, name: &[u16]) -> bool
    requires size { length bytes.old ≡ bytes_of form }
    requires page { IsDtPage form bytes.old }
    requires leaf { is_leaf bytes.old ≡ true }
    ensures page { IsDtPage form bytes.new }
    ensures leaf { is_leaf bytes.new ≡ true }
{
    match dt_find(bytes, form, name) {
        Ok(place) => {
            dt_remove(bytes, form, place);
            true
        }
        Err(_) => false,
    }
}

/// Puts `f1` to `f8` into a root; whether none of them was there, and each found room.
pub fn add_eight(root: &mut [u8]) -> bool
    requires size { length root.old ≡ 288 }
    requires page { IsDtPage Root root.old }
    requires leaf { is_leaf root.old ≡ true }
    ensures page { IsDtPage Root root.new }
    ensures leaf { is_leaf root.new ≡ true }
{
    for digit in 1..9 {
        match add(root, DtForm::Root, &[0x66, 48 + digit], 4) {
            Ok(true) => {}
            _ => return false,
        }
    }
    true
}

/// Takes `f1` to `f8` out of a root; whether each of them was there.
pub fn take_eight(root: &mut [u8]) -> bool
    requires size { length root.old ≡ 288 }
    requires page { IsDtPage Root root.old }
    requires leaf { is_leaf root.old ≡ true }
    ensures page { IsDtPage Root root.new }
    ensures leaf { is_leaf root.new ≡ true }
{
    for digit in 1..9 {
        if !take(root, DtForm::Root, &[0x66, 48 + digit]) {
            return false;
        }
    }
    true
}
