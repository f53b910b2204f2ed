//! Names with their inodes, and keys, without memory of their own.

ghost use Rattle.std.specs.Prelude.{◌≡◌, ◌≤◌, ◌<◌, ◌^◌, ℕ, List, length, take, map, slice_get, true, Some};
ghost use Rattle.jfs_name.specs.declared.name.NameEntry.{NameEntry};
ghost use Rattle.jfs_dtpage.specs.Form.{bytes_of, count_of, is_leaf};
ghost use Rattle.jfs_dtpage.specs.Page.{entries_of, IsDtPage};
ghost use Rattle.jfs_dtree.specs.Node.{named};

use jfs_dtpage::{DtForm, dt_inode, dt_name};
use std::marker::Model;

/// A name of at most 255 units, and the number of its inode.
#[derive(Drop)]
pub struct DirEntry {
    units: [u16; 255],
    length: u8,
    inode: u32,
}

impl Model for DirEntry {
    ghost Value = { NameEntry };

    ghost view = { λ e. record { name = take e.length e.units; inode = e.inode } };
}

impl DirEntry {
    pub fn new(name: &[u16], inode: u32) -> DirEntry
        requires { length name.now ≤ 255 }
        ensures { result ≡ record { name = name.now; inode = inode } }
    {
        let mut units = [0u16; 255];
        units[..name.len()].copy_from_slice(name);
        DirEntry {
            units,
            length: name.len() as u8,
            inode,
        }
    }

    /// Reads the entry at a place of a leaf over this one.
    pub(crate) fn read(&mut self, bytes: &[u8], form: DtForm, place: u32)
        requires size { length bytes.now ≡ bytes_of form }
        requires page { IsDtPage form bytes.now }
        requires leaf { is_leaf bytes.now ≡ true }
        requires place { place < count_of bytes.now }
        ensures { slice_get (map named (entries_of form bytes.now)) place ≡ Some self.new }
    {
        self.length = dt_name(bytes, form, place, &mut self.units) as u8;
        self.inode = dt_inode(bytes, form, place);
    }

    /// The units of the name.
    pub fn name(&self) -> &[u16]
        ensures units { result.now ≡ self.now.name }
        ensures most { length self.now.name ≤ 255 }
    {
        &self.units[..usize::from(self.length)]
    }

    pub fn inode(&self) -> u32
        ensures { result ≡ self.now.inode }
    {
        self.inode
    }
}

/// The key of a page: at most 255 units.
#[derive(Drop)]
pub struct NameKey {
    units: [u16; 255],
    length: u8,
}

impl Model for NameKey {
    ghost Value = { List ℕ };

    ghost view = { λ k. take k.length k.units };
}

impl NameKey {
    pub fn new(key: &[u16]) -> NameKey
        requires { length key.now ≤ 255 }
        ensures { result ≡ key.now }
    {
        let mut made = NameKey {
            units: [0; 255],
            length: 0,
        };
        made.set(key);
        made
    }

    /// Becomes this key.
    pub(crate) fn set(&mut self, key: &[u16])
        requires { length key.now ≤ 255 }
        ensures { self.new ≡ key.now }
    {
        self.units[..key.len()].copy_from_slice(key);
        self.length = key.len() as u8;
    }

    pub fn units(&self) -> &[u16]
        ensures units { result.now ≡ self.now }
        ensures most { length self.now ≤ 255 }
    {
        &self.units[..usize::from(self.length)]
    }
}
