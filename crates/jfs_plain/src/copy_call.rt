//! Copies of calls, made by a function a call: each is proved by itself.

ghost use Rattle.std.specs.Prelude.{◌≡◌, IfOk};
ghost use Rattle.jfs_plain.specs.declared.call.Call.TheVariants as calls;

use crate::call::{Call, Request};
use crate::copy::{copy_bytes, copy_path};
use jfs_bits::Blob;
use jfs_name::Path;
use std::alloc::{AllocError, Global};

impl Request {
    /// An equal request.
    pub fn copy(&self, alloc: Global) -> Result<Request, AllocError>
        ensures { IfOk result (λ same. same ≡ self.now) }
    {
        Ok(Request {
            call: self.call.copy(alloc)?,
            lazy: self.lazy,
        })
    }
}

impl Call {
    /// An equal call.
    pub fn copy(&self, alloc: Global) -> Result<Call, AllocError>
        ensures { IfOk result (λ same. same ≡ self.now) }
    {
        match self {
            Call::Mkdir { path, mode } => copy_mkdir(alloc, path, *mode),
            Call::Create { path, mode } => copy_create(alloc, path, *mode),
            Call::Symlink { path, target } => copy_symlink(alloc, path, target),
            Call::Link { from, to } => copy_link(alloc, from, to),
            Call::Unlink { path } => copy_unlink(alloc, path),
            Call::Rmdir { path } => copy_rmdir(alloc, path),
            Call::Rename { from, to } => copy_rename(alloc, from, to),
            Call::Chmod { path, mode } => copy_chmod(alloc, path, *mode),
            Call::Write {
                path,
                offset,
                bytes,
            } => copy_write(alloc, path, *offset, bytes),
            Call::Fill {
                path,
                offset,
                count,
                byte,
            } => copy_fill(alloc, path, *offset, *count, *byte),
            Call::Truncate { path, size } => copy_truncate(alloc, path, *size),
            Call::Read {
                path,
                offset,
                count,
            } => copy_read(alloc, path, *offset, *count),
            Call::Stat { path } => copy_stat(alloc, path),
            Call::List { path } => copy_list(alloc, path),
            Call::Readlink { path } => copy_readlink(alloc, path),
            Call::Sync => Ok(Call::Sync),
        }
    }
}

fn copy_mkdir(alloc: Global, path: &Path, mode: u32) -> Result<Call, AllocError>
    ensures { IfOk result (λ same. same ≡ calls.Mkdir path.now mode) }
{
    let path = copy_path(alloc, path)?;
    Ok(Call::Mkdir { path, mode })
}

fn copy_create(alloc: Global, path: &Path, mode: u32) -> Result<Call, AllocError>
    ensures { IfOk result (λ same. same ≡ calls.Create path.now mode) }
{
    let path = copy_path(alloc, path)?;
    Ok(Call::Create { path, mode })
}

fn copy_symlink(alloc: Global, path: &Path, target: &Blob) -> Result<Call, AllocError>
    ensures { IfOk result (λ same. same ≡ calls.Symlink path.now target.now) }
{
    let path = copy_path(alloc, path)?;
    let target = copy_bytes(alloc, target)?;
    Ok(Call::Symlink { path, target })
}

fn copy_link(alloc: Global, from: &Path, to: &Path) -> Result<Call, AllocError>
    ensures { IfOk result (λ same. same ≡ calls.Link from.now to.now) }
{
    let from = copy_path(alloc, from)?;
    let to = copy_path(alloc, to)?;
    Ok(Call::Link { from, to })
}

fn copy_unlink(alloc: Global, path: &Path) -> Result<Call, AllocError>
    ensures { IfOk result (λ same. same ≡ calls.Unlink path.now) }
{
    let path = copy_path(alloc, path)?;
    Ok(Call::Unlink { path })
}

fn copy_rmdir(alloc: Global, path: &Path) -> Result<Call, AllocError>
    ensures { IfOk result (λ same. same ≡ calls.Rmdir path.now) }
{
    let path = copy_path(alloc, path)?;
    Ok(Call::Rmdir { path })
}

fn copy_rename(alloc: Global, from: &Path, to: &Path) -> Result<Call, AllocError>
    ensures { IfOk result (λ same. same ≡ calls.Rename from.now to.now) }
{
    let from = copy_path(alloc, from)?;
    let to = copy_path(alloc, to)?;
    Ok(Call::Rename { from, to })
}

fn copy_chmod(alloc: Global, path: &Path, mode: u32) -> Result<Call, AllocError>
    ensures { IfOk result (λ same. same ≡ calls.Chmod path.now mode) }
{
    let path = copy_path(alloc, path)?;
    Ok(Call::Chmod { path, mode })
}

fn copy_write(alloc: Global, path: &Path, offset: u64, bytes: &Blob) -> Result<Call, AllocError>
    ensures { IfOk result (λ same. same ≡ calls.Write path.now offset bytes.now) }
{
    let path = copy_path(alloc, path)?;
    let bytes = copy_bytes(alloc, bytes)?;
    Ok(Call::Write {
        path,
        offset,
        bytes,
    })
}

fn copy_fill(
    alloc: Global,
    path: &Path,
    offset: u64,
    count: u32,
    byte: u8,
) -> Result<Call, AllocError>
    ensures { IfOk result (λ same. same ≡ calls.Fill path.now offset count byte) }
{
    let path = copy_path(alloc, path)?;
    Ok(Call::Fill {
        path,
        offset,
        count,
        byte,
    })
}

fn copy_truncate(alloc: Global, path: &Path, size: u64) -> Result<Call, AllocError>
    ensures { IfOk result (λ same. same ≡ calls.Truncate path.now size) }
{
    let path = copy_path(alloc, path)?;
    Ok(Call::Truncate { path, size })
}

fn copy_read(alloc: Global, path: &Path, offset: u64, count: u32) -> Result<Call, AllocError>
    ensures { IfOk result (λ same. same ≡ calls.Read path.now offset count) }
{
    let path = copy_path(alloc, path)?;
    Ok(Call::Read {
        path,
        offset,
        count,
    })
}

fn copy_stat(alloc: Global, path: &Path) -> Result<Call, AllocError>
    ensures { IfOk result (λ same. same ≡ calls.Stat path.now) }
{
    let path = copy_path(alloc, path)?;
    Ok(Call::Stat { path })
}

fn copy_list(alloc: Global, path: &Path) -> Result<Call, AllocError>
    ensures { IfOk result (λ same. same ≡ calls.List path.now) }
{
    let path = copy_path(alloc, path)?;
    Ok(Call::List { path })
}

fn copy_readlink(alloc: Global, path: &Path) -> Result<Call, AllocError>
    ensures { IfOk result (λ same. same ≡ calls.Readlink path.now) }
{
    let path = copy_path(alloc, path)?;
    Ok(Call::Readlink { path })
}
