//! Entries put into a page and taken out of it.

ghost use Rattle.std.specs.Prelude.{◌≡◌, ◌<◌, ◌≤◌, ◌+◌, ◌*◌, ℕ, suc, length, get_or, slice_set, true, OnOk, IfErr};
ghost use Rattle.std.specs.List.{insert, remove};
ghost use Rattle.jfs_dtpage.specs.Form.{bytes_of, count_of, free_of, head_of, is_leaf, more_slots, KeepsHead};
ghost use Rattle.jfs_bits.specs.Field.{field_of};
ghost use Rattle.jfs_dtpage.specs.Slots.{Kept};
ghost use Rattle.jfs_dtpage.specs.Order.{name_at, GoesAt};
ghost use Rattle.jfs_dtpage.specs.Page.{Named, entries_of, names_of, name_in, table_of, IsDtPage};
ghost use Rattle.jfs_dtpage.specs.Given.{given, is_named, ChildFits};

use crate::entry::{count_of, first_free, free_of, is_leaf, slot_at, table_at};
use crate::head::{DtEntry, DtForm, PageFull};
use crate::put::put_entry;
use crate::read::{dt_slots, length_of, start_of};
use crate::release::release;
use crate::table::{insert_slot, remove_slot};
use crate::write::{put_byte, put_inode};

/// Puts an entry at the place where its name goes; refused exactly where fewer slots are free than it takes, and the page is then as it was.
pub fn dt_insert(bytes: &mut [u8], form: DtForm, place: u32, e: DtEntry<'_>) -> Result<(), PageFull>
    requires size { length bytes.old ≡ bytes_of form }
    requires page { IsDtPage form bytes.old }
    requires kind { is_leaf bytes.old ≡ is_named (given e) }
    requires name { length (name_in (given e)) ≤ 255 }
    requires child { ChildFits (given e) }
    requires place { GoesAt (names_of form bytes.old) place (name_in (given e)) }
    ensures room { OnOk result (free_of bytes.new + suc (more_slots (is_leaf bytes.old) (length (name_in (given e.entry)))) ≡ free_of bytes.old) }
    ensures sound { OnOk result (IsDtPage form bytes.new) }
    ensures entries { OnOk result (entries_of form bytes.new ≡ insert (entries_of form bytes.old) place (given e.entry)) }
    ensures head { OnOk result (KeepsHead form bytes.old bytes.new) }
    ensures full { IfErr result (λ full. (full ≡ record { free = free_of bytes.old; need = 1 + more_slots (is_leaf bytes.old) (length (name_in (given e.entry))) }) × (full.free < full.need) × (bytes.new ≡ bytes.old)) }
{
    let need = dt_slots(e.name().len() as u32, is_leaf(bytes));
    let free = u32::from(free_of(bytes));
    if free < need {
        return Err(PageFull { free, need });
    }
    let slot = first_free(bytes);
    let count = count_of(bytes);
    let rest = put_entry(bytes, slot, e);
    let table = table_at(bytes, form);
    insert_slot(bytes, table, place as u8, count, slot);
    set_counts(bytes, count + 1, (free - need) as u8, rest);
    Ok(())
}

/// Takes an entry out; all its slots are free then.
pub fn dt_remove(bytes: &mut [u8], form: DtForm, place: u32)
    requires size { length bytes.old ≡ bytes_of form }
    requires page { IsDtPage form bytes.old }
    requires place { place < count_of bytes.old }
    ensures sound { IsDtPage form bytes.new }
    ensures entries { entries_of form bytes.new ≡ remove (entries_of form bytes.old) place }
    ensures head { KeepsHead form bytes.old bytes.new }
{
    let leaf = is_leaf(bytes);
    let slot = slot_at(bytes, form, place as u8);
    let taken = dt_slots(u32::from(length_of(bytes, leaf, slot)), leaf);
    let free = u32::from(free_of(bytes));
    let count = count_of(bytes);
    let first = first_free(bytes);
    release(bytes, leaf, slot, first);
    let table = table_at(bytes, form);
    remove_slot(bytes, table, place as u8, count);
    set_counts(bytes, count - 1, (free + taken) as u8, slot);
}

/// Leads the name at a place of a leaf to another inode: the inode's four bytes in the first slot of the entry change, and nothing else.
pub fn dt_set_inode(bytes: &mut [u8], form: DtForm, place: u32, inode: u32)
    requires size { length bytes.old ≡ bytes_of form }
    requires page { IsDtPage form bytes.old }
    requires leaf { is_leaf bytes.old ≡ true }
    requires place { place < count_of bytes.old }
    ensures sound { IsDtPage form bytes.new }
    ensures entries { entries_of form bytes.new ≡ slice_set (entries_of form bytes.old) place (Named inode (name_at (names_of form bytes.old) place)) }
    ensures head { head_of form bytes.new ≡ head_of form bytes.old }
    ensures kept { Kept (32 * get_or (table_of form bytes.old) place 0) 4 bytes.old bytes.new }
    ensures behind { 1 ≤ get_or (table_of form bytes.old) place 0 }
{
    let slot = slot_at(bytes, form, place as u8);
    put_inode(bytes, start_of(slot), inode);
}

/// Sets the number of entries, the number of free slots and the first of them.
pub fn set_counts(bytes: &mut [u8], entries: u8, free: u8, first: u8)
    requires { 32 ≤ length bytes.old }
    ensures entries { field_of bytes.new 17 1 ≡ entries }
    ensures free { field_of bytes.new 18 1 ≡ free }
    ensures first { field_of bytes.new 19 1 ≡ first }
    ensures kept { Kept 17 3 bytes.old bytes.new }
{
    put_byte(bytes, 17, entries);
    put_byte(bytes, 18, free);
    put_byte(bytes, 19, first);
}
