//! What callers ask for.

ghost use Rattle.std.specs.Prelude.{◌≡◌, ◌<◌, ◌≤◌};
ghost use Rattle.jfs_plain.specs.Step.{blocks_in};

use crate::reply::Reply;
use jfs_bits::Blob;
use jfs_disk::Fault;
use jfs_name::Path;

/// A call on files. Paths lead from the root directory; offsets, counts and sizes are in bytes; modes are the twelve
/// permission bits. (POSIX: mkdir, creat, symlink, link, unlink, rmdir, rename, chmod, pwrite, truncate, pread, stat,
/// readdir, readlink, sync.)
#[derive(Debug, Drop)]
pub enum Call {
    Mkdir {
        path: Path,
        mode: u32,
    },
    Create {
        path: Path,
        mode: u32,
    },
    Symlink {
        path: Path,
        target: Blob,
    },
    /// The object at `from` gets the further name `to`.
    Link {
        from: Path,
        to: Path,
    },
    Unlink {
        path: Path,
    },
    Rmdir {
        path: Path,
    },
    Rename {
        from: Path,
        to: Path,
    },
    Chmod {
        path: Path,
        mode: u32,
    },
    Write {
        path: Path,
        offset: u64,
        bytes: Blob,
    },
    /// Writes `count` times the same byte.
    Fill {
        path: Path,
        offset: u64,
        count: u32,
        byte: u8,
    },
    Truncate {
        path: Path,
        size: u64,
    },
    Read {
        path: Path,
        offset: u64,
        count: u32,
    },
    Stat {
        path: Path,
    },
    List {
        path: Path,
    },
    Readlink {
        path: Path,
    },
    /// All that was changed is to be durable.
    Sync,
}

/// A call, and whether its caller goes on before it is durable. Only a changing call may be lazy.
#[derive(Debug, Drop)]
pub struct Request {
    pub call: Call,
    pub lazy: bool,
}

/// A line of a script, by its number from 1.
#[derive(Debug, Drop)]
pub struct Line {
    pub number: u32,
    pub request: Request,
}

/// What a caller knows of its call on the disk.
#[derive(Clone, Copy, PartialEq, Eq, Debug)]
pub enum Ack {
    /// Nothing yet, or there is nothing to know.
    Pending,
    /// The entry with this number is durable.
    Durable { entry: u64 },
    /// The write of the log that was to make it durable failed.
    Failed { fault: Fault },
}

/// A call of a client in the history: the line that asked for it, and its reply.
#[derive(Debug, Drop)]
pub struct Entry {
    pub client: u32,
    pub line: u32,
    pub call: Call,
    pub lazy: bool,
    pub reply: Reply,
}

/// How many blocks a new object with its name may need.
const OBJECT_BLOCKS: u32 = 12;

/// How many blocks a name may need.
const NAME_BLOCKS: u32 = 8;

/// How many blocks a range of bytes may need beside those of its data.
const TREE_BLOCKS: u32 = 8;

impl Call {
    ghost use Rattle.std.specs.Prelude.{◌≡◌};
    ghost use Rattle.jfs_plain.specs.Call.{is_changing};
    ghost use Rattle.jfs_plain.specs.Limits.{FitsCall};
    ghost use Rattle.jfs_plain.specs.Step.{need};

    /// Whether the call may change the tree.
    pub fn is_changing(&self) -> bool
        ensures { result ≡ is_changing self.now }
    {
        !matches!(
            self,
            Call::Read { .. }
                | Call::Stat { .. }
                | Call::List { .. }
                | Call::Readlink { .. }
                | Call::Sync
        )
    }

    /// How many blocks the call may need. Those that it frees don't count.
    pub fn need(&self) -> u32
        requires { FitsCall self.now }
        ensures { result ≡ need self.now }
    {
        match self {
            Call::Mkdir { .. } | Call::Create { .. } | Call::Symlink { .. } => OBJECT_BLOCKS,
            Call::Link { .. } | Call::Rename { .. } => NAME_BLOCKS,
            Call::Write { offset, bytes, .. } => {
                blocks_in(*offset, bytes.as_slice().len() as u32) + TREE_BLOCKS
            }
            Call::Fill { offset, count, .. } => blocks_in(*offset, *count) + TREE_BLOCKS,
            _ => 0,
        }
    }
}

/// How many blocks a range of bytes touches.
fn blocks_in(offset: u64, count: u32) -> u32
    requires some { 0 < count }
    requires few { count ≤ 65536 }
    ensures blocks { result ≡ blocks_in offset count }
    ensures few { result ≤ 17 }
{
    ((offset % 4096) as u32 + count).div_ceil(4096)
}
