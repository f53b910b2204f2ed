//! Why a call is refused.

ghost use Rattle.std.specs.Prelude.{◌≡◌};
ghost use Rattle.jfs_plain.specs.Step.{Room, why_short};
ghost use Rattle.jfs_plain.specs.declared.refusal.Refusal.TheVariants.{OutOfMemory};
ghost use Rattle.jfs_plain.specs.Refusal.{number_of, name_of};

use jfs_bits::Rule;
use jfs_disk::Fault;
use std::alloc::{AllocError, AllocFailed};

/// Why a call is refused. (POSIX errors: ENOENT, ENOTDIR, EISDIR, EINVAL, EEXIST, ENOTEMPTY, EMLINK, EFBIG, EINVAL or
/// EBUSY, ENOSPC, ENFILE, EROFS, EIO, ENOMEM, EUCLEAN, ENOSPC.)
#[derive(Clone, Copy, PartialEq, Eq, Debug)]
pub enum Refusal {
    /// A name of the path isn't in its directory.
    NotFound,
    /// A name before the last is no directory, or a directory is wanted.
    NotDir,
    IsDir,
    /// A regular file is wanted, or for readlink a symbolic link.
    NotFile,
    Exists,
    NotEmpty,
    /// A link count would pass 65,535.
    TooManyLinks,
    /// The size would pass the file limit, or has passed it.
    FileTooBig,
    /// A directory would move into itself or below, or the root would be moved or removed.
    IntoItself,
    /// Fewer blocks are free than the call may need.
    NoSpace { free: u32 },
    NoInodes,
    /// The volume halted at this fault.
    ReadOnly { fault: Fault },
    IoFault { fault: Fault },
    OutOfMemory,
    /// A page that was read breaks a rule of the format.
    Damaged { page: u32, rule: Rule },
    /// The tree of this directory can't grow further.
    TooDeep { inode: u32 },
}

impl Refusal {
    /// The refusal's number, as it is printed.
    pub fn number(self) -> u32
        ensures { result ≡ number_of self }
    {
        match self {
            Refusal::NotFound => 1,
            Refusal::NotDir => 2,
            Refusal::IsDir => 3,
            Refusal::NotFile => 4,
            Refusal::Exists => 5,
            Refusal::NotEmpty => 6,
            Refusal::TooManyLinks => 7,
            Refusal::FileTooBig => 8,
            Refusal::IntoItself => 9,
            Refusal::NoSpace { .. } => 10,
            Refusal::NoInodes => 11,
            Refusal::ReadOnly { .. } => 12,
            Refusal::IoFault { .. } => 13,
            Refusal::OutOfMemory => 14,
            Refusal::Damaged { .. } => 15,
            Refusal::TooDeep { .. } => 16,
        }
    }

    /// The refusal's name, as it is printed.
    pub fn name(self) -> &'static str
        ensures { result.now ≡ name_of self }
    {
        match self {
            Refusal::NotFound => "NotFound",
            Refusal::NotDir => "NotDir",
            Refusal::IsDir => "IsDir",
            Refusal::NotFile => "NotFile",
            Refusal::Exists => "Exists",
            Refusal::NotEmpty => "NotEmpty",
            Refusal::TooManyLinks => "TooManyLinks",
            Refusal::FileTooBig => "FileTooBig",
            Refusal::IntoItself => "IntoItself",
            Refusal::NoSpace { .. } => "NoSpace",
            Refusal::NoInodes => "NoInodes",
            Refusal::ReadOnly { .. } => "ReadOnly",
            Refusal::IoFault { .. } => "IoFault",
            Refusal::OutOfMemory => "OutOfMemory",
            Refusal::Damaged { .. } => "Damaged",
            Refusal::TooDeep { .. } => "TooDeep",
        }
    }
}

/// The blocks that are always kept.
const KEPT: u64 = 64;

/// Why a call that may need so many blocks is refused for want of space, of a volume with so many free ones. Calls that need none are never refused so.
pub fn why_short(free: u32, need: u32) -> Option<Refusal>
    ensures { (room : Room) → room.free ≡ free → result ≡ why_short room need }
{
    if u64::from(free) < u64::from(need) + KEPT {
        return Some(Refusal::NoSpace { free });
    }
    None
}

impl From<AllocError> for Refusal {
    ghost from_gives = { λ _ e. e ≡ OutOfMemory };

    fn from(_e: AllocError) -> Refusal {
        Refusal::OutOfMemory
    }
}

impl<T: Drop> From<AllocFailed<T>> for Refusal {
    ghost from_gives = { λ _ e. e ≡ OutOfMemory };

    fn from(_e: AllocFailed<T>) -> Refusal {
        Refusal::OutOfMemory
    }
}
