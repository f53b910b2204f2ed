//! What a superblock says of the volume's layout.

ghost use Rattle.std.specs.Prelude.{◌≡◌, ◌≤◌, ◌+◌, ℕ};
ghost use Rattle.jfs_super.specs.Rules.{IsAccepted};
ghost use Rattle.jfs_super.specs.Geometry.{geometry_of, file_limit_of, IsLayout};

use crate::fields::{Geometry, Super};

const LONG_LOG: u32 = 1024;

const FILE_LIMIT: u64 = 268_435_456;

const SHORT_LOG_FILE_LIMIT: u64 = 33_554_432;

/// The layout that an accepted superblock gives.
pub fn geometry(s: &Super) -> Geometry
    requires { (pages : ℕ) × IsAccepted s.now pages }
    ensures layout { result ≡ geometry_of s.now }
    ensures bounds { IsLayout result }
    // The log ends within the disk.
    ensures within { (pages : ℕ) → IsAccepted s.now pages → result.log.addr + result.log.len ≤ pages }
{
    let s = *s;
    Geometry {
        blocks: (s.size / 8) as u32,
        agsize: s.agsize,
        log: s.logpxd,
        file_limit: file_limit(s.logpxd.len),
    }
}

// No file gets longer, where the log has so many pages.
fn file_limit(log_pages: u32) -> u64
    ensures { result ≡ file_limit_of log_pages }
{
    if log_pages >= LONG_LOG {
        FILE_LIMIT
    } else {
        SHORT_LOG_FILE_LIMIT
    }
}
