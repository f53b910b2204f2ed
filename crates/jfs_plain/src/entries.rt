//! The names of a directory.

ghost use Rattle.std.specs.Prelude.{◌≡◌, ◌==◌, ◌∷◌, [], List, length, OnOk, OnErr, IfOk, ◌≤◌};
ghost use Rattle.jfs_name.specs.declared.name.NameEntry.{NameEntry};
ghost use Rattle.jfs_name.specs.Directory.{is_before, is_same, named, place_of, place_for, with_name, without_name, with_inode};

use crate::copy::{copy_entry, copy_name};
use jfs_name::{Name, NameEntry, NameList};
use std::alloc::{AllocError, Global};
use std::marker::Model;

/// Names in their order, with their inodes.
#[derive(Debug, Drop)]
pub struct Entries {
    all: Vec<NameEntry>,
}

impl Model for Entries {
    ghost Value = { List NameEntry };

    ghost view = { λ e. e.all.items };
}

impl Entries {
    /// No names.
    pub fn new(alloc: Global) -> Entries
        ensures { result ≡ [] }
    {
        Entries {
            all: Vec::new(alloc),
        }
    }

    /// These names, which are in their order.
    pub fn listed(alloc: Global, names: &NameList) -> Result<Entries, AllocError>
        ensures { IfOk result (λ same. same ≡ names.now) }
    {
        let mut all = Vec::new(alloc);
        for entry in names.as_slice() {
            all.push(copy_entry(alloc, entry)?)?;
        }
        Ok(Entries { all })
    }

    pub fn is_empty(&self) -> bool
        ensures { result ≡ (length self.now == 0) }
    {
        self.all.is_empty()
    }

    /// The inode that a name names.
    pub fn find(&self, name: &Name) -> Option<u32>
        ensures { result ≡ named name.now self.now }
    {
        for entry in self.all.as_slice() {
            if is_same(&entry.name, name) {
                return Some(entry.inode);
            }
        }
        None
    }

    /// A new name goes before the first one that stands after it; at `Err` the names are as they were.
    pub fn add(&mut self, entry: NameEntry) -> Result<(), AllocError>
        ensures ok { OnOk result (self.new ≡ with_name entry self.old) }
        ensures err { OnErr result (self.new ≡ self.old) }
    {
        let at = self.count_before(&entry.name);
        self.all.insert(at, entry)?;
        Ok(())
    }

    /// A name goes, if it is there.
    pub fn remove(&mut self, name: &Name)
        ensures { self.new ≡ without_name name.now self.old }
    {
        let at = self.count_others(name);
        if at < self.all.len() {
            self.all.remove(at);
        }
    }

    /// A name that is there names another inode.
    pub fn lead(&mut self, name: &Name, inode: u32)
        ensures { self.new ≡ with_inode name.now inode self.old }
    {
        let at = self.count_others(name);
        if at < self.all.len() {
            self.all[at].inode = inode;
        }
    }

    /// The number of the first names that stand before a name.
    fn count_before(&self, name: &Name) -> usize
        ensures place { result ≡ place_for name.now self.now }
        ensures within { result ≤ length self.now }
    {
        let mut at = 0;
        for entry in self.all.as_slice() {
            if !is_before(&entry.name, name) {
                return at;
            }
            at += 1;
        }
        at
    }

    /// The number of the first names that are other ones.
    fn count_others(&self, name: &Name) -> usize
        ensures place { result ≡ place_of name.now self.now }
        ensures within { result ≤ length self.now }
    {
        let mut at = 0;
        for entry in self.all.as_slice() {
            if is_same(&entry.name, name) {
                return at;
            }
            at += 1;
        }
        at
    }

    /// A copy of the names.
    pub fn copy(&self, alloc: Global) -> Result<NameList, AllocError>
        ensures { IfOk result (λ same. same ≡ self.now) }
    {
        let mut same = NameList::new(alloc);
        for entry in self.all.as_slice() {
            same.push(NameEntry {
                name: copy_name(alloc, &entry.name)?,
                inode: entry.inode,
            })?;
        }
        Ok(same)
    }
}

/// Whether one name stands before another: unit by unit as numbers, a front first.
fn is_before(a: &Name, b: &Name) -> bool
    ensures { result ≡ is_before a.now b.now }
{
    a.as_slice().cmp(b.as_slice()).is_lt()
}

fn is_same(a: &Name, b: &Name) -> bool
    ensures { result ≡ is_same a.now b.now }
{
    a.as_slice().cmp(b.as_slice()).is_eq()
}
