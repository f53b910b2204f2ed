//! The inodes in use, of those that have a place.

ghost use Rattle.std.specs.Prelude.{◌≡◌, ◌≤◌, ◌<◌, ◌*◌, ◌^◌, ◌&&◌, length, is_some, ℕ};
ghost use Rattle.jfs_bits.specs.Bits.{is_taken};
ghost use Rattle.jfs_sets.specs.objects.specs.Volume.{home};

use jfs_bits::clear_run;

/// Clears the bit of each inode whose extent isn't there: such an inode isn't in use, whatever its bit is. Each place of an extent stands for 32 inodes.
pub(crate) fn keep_placed(set: &mut [u8], places: &[Option<u32>])
    requires size { length set.old ≡ 4 * length places.now }
    requires few { length places.now ≤ 2 ^ 23 }
    ensures size { length set.new ≡ length set.old }
    ensures bits { (n : ℕ) → n < 32 * length places.now → is_taken set.new n ≡ (is_some (home places.now n) && is_taken set.old n) }
{
    for e in 0..places.len() as u32 {
        if places[e as usize].is_none() {
            clear_run(set, 32 * e, 32);
        }
    }
}
