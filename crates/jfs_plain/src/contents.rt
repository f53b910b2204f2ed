//! Calls on what a file holds: write, fill, truncate, read.

ghost use Rattle.std.specs.Prelude.{◌≡◌, ◌+◌, ◌<◌, ◌^◌, IfOk, IfErr, IfSome, OnOk, OnErr, Err, length, replicate};
ghost use Rattle.jfs_plain.specs.Tree.{object_as};
ghost use Rattle.jfs_plain.specs.Moves.{filled, cut};
ghost use Rattle.jfs_plain.specs.Step.{file, size_after, write, truncate, read};
ghost use Rattle.jfs_plain.specs.Plain.{Became, Meets, ample, byte_at, tree_of};

use crate::content::Content;
use crate::node::Node;
use crate::plain::{PlainTree, Supply};
use crate::refusal::Refusal;
use crate::reply::Reply;
use jfs_bits::Blob;
use jfs_name::Name;
use std::alloc::{AllocError, Global};

impl PlainTree {
    pub(crate) fn write(
        &mut self,
        path: &[Name],
        offset: u64,
        bytes: &[u8],
        supply: Supply,
    ) -> Result<Reply, Refusal>
        ensures answer { Meets (tree_of self.old) (write (ample self.old.file_limit supply.inode) (tree_of self.old) path.now offset bytes.now supply.now) result (tree_of self.new) }
        ensures limit { self.new.file_limit ≡ self.old.file_limit }
    {
        let (n, node) = self.file(path)?;
        let length = bytes.len() as u64;
        let Some(size) = size_after(self.file_limit, node.size, offset, length) else {
            return Err(Refusal::FileTooBig);
        };
        self.put(n, offset, bytes)?;
        self.resize(n, size, supply.now);
        Ok(Reply::Done)
    }

    pub(crate) fn fill(
        &mut self,
        path: &[Name],
        offset: u64,
        count: u32,
        byte: u8,
        supply: Supply,
    ) -> Result<Reply, Refusal>
        ensures answer { Meets (tree_of self.old) (write (ample self.old.file_limit supply.inode) (tree_of self.old) path.now offset (replicate count byte) supply.now) result (tree_of self.new) }
        ensures limit { self.new.file_limit ≡ self.old.file_limit }
    {
        let bytes = repeated(self.alloc, byte, count as usize)?;
        self.write(path, offset, bytes.as_slice(), supply)
    }

    pub(crate) fn truncate(
        &mut self,
        path: &[Name],
        size: u64,
        supply: Supply,
    ) -> Result<Reply, Refusal>
        ensures answer { Meets (tree_of self.old) (truncate (ample self.old.file_limit supply.inode) (tree_of self.old) path.now size supply.now) result (tree_of self.new) }
        ensures limit { self.new.file_limit ≡ self.old.file_limit }
    {
        let (n, node) = self.file(path)?;
        if node.size.max(size) > self.file_limit {
            return Err(Refusal::FileTooBig);
        }
        self.cut(n, size);
        self.resize(n, size, supply.now);
        Ok(Reply::Done)
    }

    pub(crate) fn read(&self, path: &[Name], offset: u64, count: u32) -> Result<Reply, Refusal>
        ensures { Meets (tree_of self.now) (read (tree_of self.now) path.now offset count) result (tree_of self.now) }
    {
        let (n, node) = self.file(path)?;
        let count = u64::from(count).min(node.size.saturating_sub(offset));
        let mut bytes = Blob::new(self.alloc);
        for i in 0..count {
            bytes.push(self.byte(n, offset + i))?;
        }
        Ok(Reply::Bytes(bytes))
    }

    /// The file that a path leads to, and its number.
    fn file(&self, path: &[Name]) -> Result<(u32, &Node), Refusal>
        ensures ok { IfOk result (λ found. file (tree_of self.now) path.now ≡ object_as found.0 found.1.now) }
        ensures err { IfErr result (λ why. file (tree_of self.now) path.now ≡ Err why) }
    {
        let (n, node) = self.object(path)?;
        if node.is_dir() {
            return Err(Refusal::IsDir);
        }
        if !node.is_file() {
            return Err(Refusal::NotFile);
        }
        Ok((n, node))
    }

    /// Byte `i` of a file; 0 where it holds none.
    pub fn byte(&self, n: u32, i: u64) -> u8
        ensures { result ≡ byte_at self.now n i }
    {
        match self.contents.get(&n) {
            Some(content) => content.byte(i),
            None => 0,
        }
    }

    /// Bytes are put into a file; at `Err` it is as it was.
    fn put(&mut self, n: u32, offset: u64, bytes: &[u8]) -> Result<(), AllocError>
        requires { offset + length bytes.now < 2 ^ 64 }
        ensures ok { OnOk result (Became self.old self.new (filled n offset bytes.now)) }
        ensures err { OnErr result (Became self.old self.new (λ t. t)) }
    {
        if let Some(content) = self.contents.get_mut(&n) {
            return content.put(offset, bytes);
        }
        let mut content = Content::new(self.alloc);
        content.put(offset, bytes)?;
        self.contents.insert(n, content)?;
        Ok(())
    }

    /// Only zeros are left behind an end.
    fn cut(&mut self, n: u32, end: u64)
        ensures { Became self.old self.new (cut n end) }
    {
        if let Some(content) = self.contents.get_mut(&n) {
            content.cut(end);
        }
    }
}

/// The size of a file after a write, if the limit allows it.
fn size_after(limit: u64, size: u64, offset: u64, length: u64) -> Option<u64>
    ensures size { result ≡ size_after limit size (offset + length) }
    ensures fits { IfSome result (λ _. offset + length < 2 ^ 64) }
{
    let end = offset.checked_add(length)?;
    let size = size.max(end);
    if size > limit { None } else { Some(size) }
}

/// So many times the same byte.
fn repeated(alloc: Global, byte: u8, count: usize) -> Result<Vec<u8>, AllocError>
    ensures { IfOk result (λ bytes. bytes.items ≡ replicate count byte) }
{
    let mut bytes = Vec::new(alloc);
    bytes.resize(count, byte)?;
    Ok(bytes)
}
