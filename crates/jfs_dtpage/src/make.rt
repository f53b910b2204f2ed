//! Pages made.

ghost use Rattle.std.specs.Prelude.{◌≡◌, ◌<◌, ◌≤◌, ◌+◌, ◌*◌, ◌-◌, ◌/◌, ◌%◌, ◌==◌, [], ℕ, length};
ghost use Rattle.jfs_bits.specs.Descriptor.{FitsPxd};
ghost use Rattle.jfs_dtpage.specs.declared.head.DtForm.TheVariants.{Root, Full};
ghost use Rattle.jfs_dtpage.specs.Form.{bytes_of, free_of, head_of, is_leaf, most_of, made};
ghost use Rattle.jfs_dtpage.specs.Slots.{next_of, Kept};
ghost use Rattle.jfs_dtpage.specs.Page.{entries_of, FlagFits, IsDtPage};

use crate::edit::set_counts;
use crate::head::DtForm;
use crate::read::start_of;
use crate::write::{END, put_byte, put_child, put_neighbour};
use jfs_bits::Pxd;

/// Makes a page without entries, whose neighbours are 0. A root keeps its parent's number; it has no place of its own, and `at` isn't looked at.
pub fn dt_new(bytes: &mut [u8], form: DtForm, leaf: bool, at: Pxd)
    requires size { length bytes.old ≡ bytes_of form }
    requires place { FitsPxd at }
    ensures sound { IsDtPage form bytes.new }
    ensures entries { entries_of form bytes.new ≡ [] }
    ensures kind { is_leaf bytes.new ≡ leaf }
    ensures free { free_of bytes.new ≡ most_of form }
    ensures head { (head_of form bytes.new).place ≡ made at (head_of form bytes.old).place }
{
    match form {
        DtForm::Root => new_root(bytes, leaf),
        DtForm::Full => new_page(bytes, leaf, at),
    }
}

fn new_root(bytes: &mut [u8], leaf: bool)
    requires { length bytes.old ≡ 288 }
    ensures sound { IsDtPage Root bytes.new }
    ensures entries { entries_of Root bytes.new ≡ [] }
    ensures kind { is_leaf bytes.new ≡ leaf }
    ensures free { free_of bytes.new ≡ 8 }
    ensures head { (head_of Root bytes.new).place ≡ (head_of Root bytes.old).place }
{
    put_byte(bytes, 16, flag_for(DtForm::Root, leaf));
    set_counts(bytes, 0, 8, 1);
    link_free(bytes, 1, 9);
}

fn new_page(bytes: &mut [u8], leaf: bool, at: Pxd)
    requires size { length bytes.old ≡ 4096 }
    requires place { FitsPxd at }
    ensures sound { IsDtPage Full bytes.new }
    ensures entries { entries_of Full bytes.new ≡ [] }
    ensures kind { is_leaf bytes.new ≡ leaf }
    ensures free { free_of bytes.new ≡ 123 }
    ensures head { (head_of Full bytes.new).place ≡ made at (head_of Full bytes.old).place }
{
    put_neighbour(bytes, 0, 0);
    put_neighbour(bytes, 8, 0);
    put_byte(bytes, 16, flag_for(DtForm::Full, leaf));
    set_counts(bytes, 0, 123, 5);
    put_byte(bytes, 20, 128);
    put_byte(bytes, 21, 1);
    put_child(bytes, 24, at);
    link_free(bytes, 5, 128);
}

/// The flag byte of such a page; its highest bit says that the tree is a directory's.
fn flag_for(form: DtForm, leaf: bool) -> u8
    ensures fits { FlagFits form (result % 8) }
    ensures kind { (result / 2 % 2 == 1) ≡ leaf }
{
    match form {
        DtForm::Root => if leaf { 0x83 } else { 0x85 },
        DtForm::Full => if leaf { 0x82 } else { 0x84 },
    }
}

/// Makes each slot name the next one, and the last one none.
fn link_free(bytes: &mut [u8], first: u8, end: u8)
    requires within { 32 * end ≤ length bytes.old }
    requires some { first < end }
    ensures next { (k : ℕ) → first ≤ k → k + 1 < end → next_of bytes.new k ≡ k + 1 }
    ensures last { next_of bytes.new (end - 1) ≡ 255 }
    ensures kept { Kept (32 * first) (32 * (end - first)) bytes.old bytes.new }
{
    for slot in first..end - 1 {
        put_byte(bytes, start_of(slot), slot + 1);
    }
    put_byte(bytes, start_of(end - 1), END);
}
