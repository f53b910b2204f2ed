//! Copies of replies, and of what calls and replies hold. They are made by hand, since a copy may want memory.

ghost use Rattle.std.specs.Prelude.{◌≡◌, IfOk};

use crate::reply::Reply;
use jfs_bits::Blob;
use jfs_name::{Name, NameEntry, NameList, Path};
use std::alloc::{AllocError, Global};

impl Reply {
    /// An equal reply.
    pub fn copy(&self, alloc: Global) -> Result<Reply, AllocError>
        ensures { IfOk result (λ same. same ≡ self.now) }
    {
        match self {
            Reply::Done => Ok(Reply::Done),
            Reply::Bytes(bytes) => Ok(Reply::Bytes(copy_bytes(alloc, bytes)?)),
            Reply::Attr(stat) => Ok(Reply::Attr(*stat)),
            Reply::Names(names) => Ok(Reply::Names(copy_names(alloc, names)?)),
            Reply::Target(target) => Ok(Reply::Target(copy_bytes(alloc, target)?)),
            Reply::Refused(refusal) => Ok(Reply::Refused(*refusal)),
        }
    }
}

/// Equal bytes.
pub fn copy_bytes(alloc: Global, bytes: &Blob) -> Result<Blob, AllocError>
    ensures { IfOk result (λ same. same ≡ bytes.now) }
{
    let mut same = Blob::new(alloc);
    same.extend_from_slice(bytes.as_slice())?;
    Ok(same)
}

/// An equal name.
pub fn copy_name(alloc: Global, name: &Name) -> Result<Name, AllocError>
    ensures { IfOk result (λ same. same ≡ name.now) }
{
    let mut same = Name::new(alloc);
    same.extend_from_slice(name.as_slice())?;
    Ok(same)
}

/// An equal path.
pub fn copy_path(alloc: Global, path: &Path) -> Result<Path, AllocError>
    ensures { IfOk result (λ same. same ≡ path.now) }
{
    let mut same = Path::new(alloc);
    for name in path.as_slice() {
        same.push(copy_name(alloc, name)?)?;
    }
    Ok(same)
}

/// Equal names with their inodes.
pub fn copy_names(alloc: Global, names: &NameList) -> Result<NameList, AllocError>
    ensures { IfOk result (λ same. same ≡ names.now) }
{
    let mut same = NameList::new(alloc);
    for entry in names.as_slice() {
        same.push(copy_entry(alloc, entry)?)?;
    }
    Ok(same)
}

/// An equal name with its inode.
pub(crate) fn copy_entry(alloc: Global, entry: &NameEntry) -> Result<NameEntry, AllocError>
    ensures { IfOk result (λ same. same ≡ entry.now) }
{
    Ok(NameEntry {
        name: copy_name(alloc, &entry.name)?,
        inode: entry.inode,
    })
}
