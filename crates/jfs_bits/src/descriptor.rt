//! Descriptors of several numbers: runs of blocks and moments.

ghost use Rattle.std.specs.Prelude.{◌≡◌, ◌+◌, ◌^◌, ◌<◌, ◌≤◌, length};
ghost use Rattle.jfs_bits.specs.Field.{put_bytes};
ghost use Rattle.jfs_bits.specs.Descriptor.{pxd_of, pxd_bytes, FitsPxd, moment_of, moment_bytes};

use crate::field::{get_u32, put_u32};

/// A run of blocks (physical extent descriptor): `len` blocks from block `addr` on.
/// On the disk the length has 24 bits and the address 40. (JFS Layout, `pxd_t`.)
#[derive(Clone, Copy, PartialEq, Eq, Debug)]
pub struct Pxd {
    pub len: u32,
    pub addr: u64,
}

/// A moment: seconds since 1970 and nanoseconds. (JFS Layout, `timestruc_t`.)
#[derive(Clone, Copy, PartialEq, Eq, Debug)]
pub struct Moment {
    pub sec: u32,
    pub nano: u32,
}

/// The run that the 8 bytes from `at` on describe.
pub fn get_pxd(bytes: &[u8], at: usize) -> Pxd
    requires { at + 8 ≤ length bytes.now }
    ensures value { result ≡ pxd_of bytes.now at }
    ensures fits { FitsPxd result }
{
    let first = get_u32(bytes, at);
    let second = get_u32(bytes, at + 4);
    Pxd {
        len: first % (1 << 24),
        addr: u64::from(first / (1 << 24)) * (1 << 32) + u64::from(second),
    }
}

/// Puts a run into the 8 bytes from `at` on.
pub fn put_pxd(bytes: &mut [u8], at: usize, v: Pxd)
    requires within { at + 8 ≤ length bytes.old }
    requires fits { FitsPxd v }
    ensures bytes { bytes.new ≡ put_bytes at (pxd_bytes v) bytes.old }
    ensures read_back { pxd_of bytes.new at ≡ v }
{
    let high = (v.addr / (1 << 32)) as u32;
    let low = (v.addr % (1 << 32)) as u32;
    put_u32(bytes, at, v.len + high * (1 << 24));
    put_u32(bytes, at + 4, low);
}

/// The moment in the 8 bytes from `at` on.
pub fn get_moment(bytes: &[u8], at: usize) -> Moment
    requires { at + 8 ≤ length bytes.now }
    ensures value { result ≡ moment_of bytes.now at }
    ensures fits { (result.sec < 2 ^ 32) × (result.nano < 2 ^ 32) }
{
    Moment {
        sec: get_u32(bytes, at),
        nano: get_u32(bytes, at + 4),
    }
}

/// Puts a moment into the 8 bytes from `at` on.
pub fn put_moment(bytes: &mut [u8], at: usize, v: Moment)
    requires { at + 8 ≤ length bytes.old }
    ensures bytes { bytes.new ≡ put_bytes at (moment_bytes v) bytes.old }
    ensures fits { (v.sec < 2 ^ 32) × (v.nano < 2 ^ 32) }
    ensures read_back { moment_of bytes.new at ≡ v }
{
    put_u32(bytes, at, v.sec);
    put_u32(bytes, at + 4, v.nano);
}
