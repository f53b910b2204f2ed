//! Numbers at fixed places, little endian.

ghost use Rattle.std.specs.Prelude.{◌≡◌, ◌+◌, ◌^◌, ◌<◌, ◌≤◌, ◌∷◌, [], length};
ghost use Rattle.byteorder.specs.Endian.{little_bytes};
ghost use Rattle.jfs_bits.specs.Field.{field_of, put_bytes, range_of};

use byteorder::{ByteOrder, LittleEndian};

/// The byte at `at`.
pub fn get_u8(bytes: &[u8], at: usize) -> u8
    requires { at + 1 ≤ length bytes.now }
    ensures value { result ≡ field_of bytes.now at 1 }
    ensures fits { result < 2 ^ 8 }
{
    bytes[at]
}

/// The number in the 2 bytes from `at` on.
pub fn get_u16(bytes: &[u8], at: usize) -> u16
    requires { at + 2 ≤ length bytes.now }
    ensures value { result ≡ field_of bytes.now at 2 }
    ensures fits { result < 2 ^ 16 }
{
    LittleEndian::read_u16(&bytes[at..])
}

/// The number in the 4 bytes from `at` on.
pub fn get_u32(bytes: &[u8], at: usize) -> u32
    requires { at + 4 ≤ length bytes.now }
    ensures value { result ≡ field_of bytes.now at 4 }
    ensures fits { result < 2 ^ 32 }
{
    LittleEndian::read_u32(&bytes[at..])
}

/// The number in the 8 bytes from `at` on.
pub fn get_u64(bytes: &[u8], at: usize) -> u64
    requires { at + 8 ≤ length bytes.now }
    ensures value { result ≡ field_of bytes.now at 8 }
    ensures fits { result < 2 ^ 64 }
{
    LittleEndian::read_u64(&bytes[at..])
}

/// The `N` bytes from `at` on.
pub fn get_array<const N: usize>(bytes: &[u8], at: usize) -> [u8; N]
    requires { at + N ≤ length bytes.now }
    ensures { result ≡ range_of bytes.now at N }
{
    let mut array = [0u8; N];
    array.copy_from_slice(&bytes[at..at + N]);
    array
}

/// Puts the byte at `at`.
pub fn put_u8(bytes: &mut [u8], at: usize, value: u8)
    requires { at + 1 ≤ length bytes.old }
    ensures bytes { bytes.new ≡ put_bytes at (little_bytes 1 value) bytes.old }
    ensures fits { value < 2 ^ 8 }
{
    bytes[at] = value;
}

/// Puts the number into the 2 bytes from `at` on.
pub fn put_u16(bytes: &mut [u8], at: usize, value: u16)
    requires { at + 2 ≤ length bytes.old }
    ensures bytes { bytes.new ≡ put_bytes at (little_bytes 2 value) bytes.old }
    ensures fits { value < 2 ^ 16 }
{
    LittleEndian::write_u16(&mut bytes[at..], value);
}

/// Puts the number into the 4 bytes from `at` on.
pub fn put_u32(bytes: &mut [u8], at: usize, value: u32)
    requires { at + 4 ≤ length bytes.old }
    ensures bytes { bytes.new ≡ put_bytes at (little_bytes 4 value) bytes.old }
    ensures fits { value < 2 ^ 32 }
{
    LittleEndian::write_u32(&mut bytes[at..], value);
}

/// Puts the number into the 8 bytes from `at` on.
pub fn put_u64(bytes: &mut [u8], at: usize, value: u64)
    requires { at + 8 ≤ length bytes.old }
    ensures bytes { bytes.new ≡ put_bytes at (little_bytes 8 value) bytes.old }
    ensures fits { value < 2 ^ 64 }
{
    LittleEndian::write_u64(&mut bytes[at..], value);
}

/// Puts `N` bytes from `at` on.
pub fn put_array<const N: usize>(bytes: &mut [u8], at: usize, value: &[u8; N])
    requires { at + N ≤ length bytes.old }
    ensures bytes { bytes.new ≡ put_bytes at value.now bytes.old }
    ensures fits { length value.now ≡ N }
{
    bytes[at..at + N].copy_from_slice(value);
}
