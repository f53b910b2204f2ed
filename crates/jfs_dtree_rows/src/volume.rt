//! A directory on a volume in memory, and beside its tree the plain list of its names.

ghost use Rattle.std.specs.Prelude.{◌≡◌, ◌≤◌, [], ◌∷◌, IfOk, length};
ghost use Rattle.jfs_ranges.specs.View.{no_device};
ghost use Rattle.jfs_disk.specs.declared.disk.Part.TheVariants.{Low};

use jfs_bits::{Pxd, PxdList};
use jfs_disk::{Fault, Page, Part};
use jfs_dtpage::{DtForm, dt_new};
use jfs_dtree::{DtError, add, find, list, new_root, remove};
use jfs_name::{Name, NameEntry, NameList};
use jfs_ranges::{Edit, PageView, Tx, ViewError, apply};
use std::alloc::{AllocError, Global};
use std::cmp::Ordering;

/// Each of the first 16 bytes of a root, where a limit of the directory may stand.
pub const LIMIT: u8 = 90;

/// The blocks of the volume.
const BLOCKS: u32 = 256;

/// The pages of a volume that counts its reads. One of them may be bad.
#[derive(Drop)]
pub struct Volume {
    pages: Vec<Page>,
    pub bad: u32,
    faults: u64,
    pub reads: u64,
}

impl PageView for Volume {
    ghost block_count = { λ volume. 256 };

    ghost faults = { λ volume. record { part = Low; count = volume.faults } };

    ghost image = { λ volume. [] };

    ghost tells = { ⊥ };

    ghost crashes = { ⊥ };

    ghost device = { λ volume. no_device };

    ghost has_pages = { λ volume told. absurd told };

    fn blocks(&self) -> u32 {
        256
    }

    fn page(&mut self, n: u32) -> Result<&Page, ViewError> {
        if n == self.bad {
            self.faults = self.faults.saturating_add(1);
            return Err(ViewError::Read(Fault {
                part: Part::Low,
                count: self.faults,
            }));
        }
        self.reads = self.reads.saturating_add(1);
        match self.pages.get(n as usize) {
            Some(page) => Ok(page),
            None => Err(ViewError::Memory),
        }
    }
}

/// A directory, the blocks that its tree took and gave back, and its names in order. Blocks are handed to the tree one after the other, and
/// none twice.
#[derive(Drop)]
pub struct Dir {
    pub volume: Volume,
    pub root: [u8; 288],
    pub told: Told,
    pub plain: Vec<NameEntry>,
}

/// What the transactions told: how many blocks were taken, how many are free, and how many pages' records aren't to be redone. `left` is
/// how many the calls took from the blocks that they were handed.
#[derive(Drop, PartialEq, Eq)]
pub struct Told {
    pub left: u32,
    pub taken: u32,
    pub free: u32,
    pub ended: u32,
}

impl Told {
    fn uses(&mut self, blocks: u32) {
        self.left = self.left.saturating_add(blocks);
    }

    fn adds(&mut self, tx: &Tx) {
        for edit in tx.as_slice() {
            match edit {
                Edit::NoRedo { .. } => self.ended = self.ended.saturating_add(1),
                Edit::Alloc(run) => self.taken = self.taken.saturating_add(run.len),
                Edit::Free(run) => self.free = self.free.saturating_add(run.len),
                Edit::Lines { .. } => {}
            }
        }
    }
}

impl Dir {
    /// The root directory without names, and without pages.
    pub fn new(alloc: Global) -> Result<Dir, AllocError> {
        let mut pages = Vec::new(alloc);
        for _ in 0..BLOCKS {
            pages.push(Page::zeros())?;
        }
        let mut root = [0; 288];
        new_root(&mut root, 2);
        for at in 0..16 {
            root[at] = LIMIT;
        }
        Ok(Dir {
            volume: Volume {
                pages,
                bad: BLOCKS,
                faults: 0,
                reads: 0,
            },
            root,
            told: Told {
                left: 0,
                taken: 0,
                free: 0,
                ended: 0,
            },
            plain: Vec::new(alloc),
        })
    }

    /// How many pages the tree has, by what was told.
    pub fn pages(&self) -> u32 {
        self.told.taken.saturating_sub(self.told.free)
    }

    /// What the tree answers where a name is added with eight blocks from `first` on, and how many of these it left.
    fn add_with(
        &mut self,
        alloc: Global,
        name: &Name,
        inode: u32,
        first: u32,
        tx: &mut Tx,
    ) -> (Result<(), DtError>, u32)
        requires name { length name.now ≤ 255 }
        requires first { first ≤ 248 }
    {
        let Ok(mut fresh) = eight(alloc, first) else {
            return (Err(DtError::View(ViewError::Memory)), 0);
        };
        let answer = add(
            alloc,
            &mut self.volume,
            &mut self.root,
            name,
            inode,
            &mut fresh,
            tx,
        );
        (answer, blocks_of(&fresh))
    }

    /// What the tree answers where a name is removed.
    pub fn remove_with(&mut self, alloc: Global, name: &Name, tx: &mut Tx) -> Result<u32, DtError>
        requires { length name.now ≤ 255 }
    {
        remove(alloc, &mut self.volume, &mut self.root, name, tx)
    }

    /// Adds a name to the tree, and where it is taken, to the plain list.
    pub fn adds(&mut self, alloc: Global, name: Name, inode: u32) -> Result<(), DtError>
        requires { length name ≤ 255 }
    {
        let mut tx = Tx::new(alloc);
        let first = self.told.taken.min(BLOCKS - 8);
        let (answer, left) = self.add_with(alloc, &name, inode, first, &mut tx);
        if answer.is_ok() {
            self.told.uses(8u32.saturating_sub(left));
            self.applies(&tx);
            return self.notes(name, inode);
        }
        answer
    }

    /// Puts a name into the plain list.
    fn notes(&mut self, name: Name, inode: u32) -> Result<(), DtError> {
        let place = self.place_of(name.as_slice()).min(self.plain.len());
        match self.plain.insert(place, NameEntry { name, inode }) {
            Ok(()) => Ok(()),
            Err(_) => Err(DtError::View(ViewError::Memory)),
        }
    }

    /// Takes a name out of the tree, and where that is done, out of the plain list.
    pub fn removes(&mut self, alloc: Global, name: &Name) -> Result<u32, DtError>
        requires { length name.now ≤ 255 }
    {
        let mut tx = Tx::new(alloc);
        let answer = self.remove_with(alloc, name, &mut tx);
        if answer.is_ok() {
            self.applies(&tx);
            self.drops(name);
        }
        answer
    }

    /// Takes a name out of the plain list.
    fn drops(&mut self, name: &Name) {
        let place = self.place_of(name.as_slice());
        if place < self.plain.len() {
            let _gone = self.plain.remove(place);
        }
    }

    /// Applies a transaction to the pages, and counts what it tells.
    pub fn applies(&mut self, tx: &Tx) {
        self.told.adds(tx);
        let mut n: u32 = 0;
        for page in self.volume.pages.iter_mut() {
            apply(tx, n, page);
            n = n.saturating_add(1);
        }
    }

    /// How many names of the plain list come before a name.
    fn place_of(&self, name: &[u16]) -> usize {
        let mut place: usize = 0;
        for entry in &self.plain {
            match entry.name.as_slice().cmp(&name) {
                Ordering::Less => place = place.saturating_add(1),
                Ordering::Equal | Ordering::Greater => {}
            }
        }
        place
    }

    /// The inode of a name, by the plain list.
    pub fn inode_of(&self, name: &[u16]) -> Option<u32> {
        for entry in &self.plain {
            if entry.name.as_slice() == name {
                return Some(entry.inode);
            }
        }
        None
    }

    /// What the tree finds for a name.
    pub fn find(&mut self, name: &Name) -> Result<Option<u32>, DtError>
        requires { length name.now ≤ 255 }
    {
        find(&mut self.volume, &self.root, name)
    }

    /// Whether the tree finds for a name what the plain list has.
    pub fn finds(&mut self, name: &Name) -> bool
        requires { length name.now ≤ 255 }
    {
        self.find(name) == Ok(self.inode_of(name.as_slice()))
    }

    /// The names of the tree in their order. From here on the reads are counted.
    fn list(&mut self, alloc: Global) -> Result<NameList, DtError> {
        self.volume.reads = 0;
        list(alloc, &mut self.volume, &self.root)
    }

    /// Whether the names of the tree aren't listed for this reason.
    pub fn list_fails(&mut self, alloc: Global, why: DtError) -> bool {
        match self.list(alloc) {
            Ok(_) => false,
            Err(e) => e == why,
        }
    }

    /// Whether the names of the tree are those of the plain list.
    pub fn lists(&mut self, alloc: Global) -> bool {
        match self.list(alloc) {
            Ok(names) => are_same(names.as_slice(), self.plain.as_slice()),
            Err(_) => false,
        }
    }

    /// Whether a name is refused for this reason, and root, blocks and transaction stay as they were.
    pub fn refuses(&mut self, alloc: Global, name: &Name, why: DtError) -> bool
        requires { length name.now ≤ 255 }
    {
        let root = self.root;
        let mut tx = one_edit(alloc);
        let (answer, left) = self.add_with(alloc, name, 9, 200, &mut tx);
        answer == Err(why) && self.root == root && left == 8 && tx.len() == 1
    }

    /// Whether a name isn't taken out for this reason, and root and transaction stay as they were.
    pub fn keeps(&mut self, alloc: Global, name: &Name, why: DtError) -> bool
        requires { length name.now ≤ 255 }
    {
        let root = self.root;
        let mut tx = one_edit(alloc);
        let answer = self.remove_with(alloc, name, &mut tx);
        answer == Err(why) && self.root == root && tx.len() == 1
    }
}

/// Pages as bytes.
impl Dir {
    /// Takes all names out of the root.
    pub fn clears(&mut self) {
        new_root(&mut self.root, 2);
    }

    /// A byte of a page, or 255 where there is none.
    pub fn byte(&self, page: usize, at: usize) -> u8 {
        match self.volume.pages.get(page) {
            Some(page) => match page.bytes().get(at) {
                Some(byte) => *byte,
                None => 255,
            },
            None => 255,
        }
    }

    /// Sets a byte of a page.
    pub fn puts(&mut self, page: usize, at: usize, byte: u8) {
        if let Some(page) = self.volume.pages.get_mut(page) {
            if at < 4096 {
                page.0[at] = byte;
            }
        }
    }

    /// Swaps a page's first two entries.
    pub fn swaps(&mut self, page: usize) {
        let (first, second) = (self.byte(page, 32), self.byte(page, 33));
        self.puts(page, 32, second);
        self.puts(page, 33, first);
    }

    /// Makes a page an inner page without children.
    pub fn empties(&mut self, page: usize) {
        if let Some(page) = self.volume.pages.get_mut(page) {
            dt_new(&mut page.0, DtForm::Full, false, Pxd { len: 1, addr: 2 });
        }
    }

    /// Makes a page a copy of another one.
    pub fn copies(&mut self, from: usize, to: usize) {
        let Some(page) = self.volume.pages.get(from) else {
            return;
        };
        let bytes = page.0;
        if let Some(page) = self.volume.pages.get_mut(to) {
            page.0 = bytes;
        }
    }
}

fn are_same(names: &[NameEntry], plain: &[NameEntry]) -> bool {
    for (entry, other) in names.iter().zip(plain.iter()) {
        if entry.name.as_slice() != other.name.as_slice() || entry.inode != other.inode {
            return false;
        }
    }
    names.len() == plain.len()
}

fn blocks_of(fresh: &PxdList) -> u32 {
    let mut blocks: u32 = 0;
    for run in fresh.as_slice() {
        blocks = blocks.saturating_add(run.len);
    }
    blocks
}

/// A transaction of one edit, or of none where memory ran out.
pub fn one_edit(alloc: Global) -> Tx {
    let mut tx = Tx::new(alloc);
    match tx.push(Edit::NoRedo { page: 9 }) {
        Ok(()) => tx,
        Err(_) => Tx::new(alloc),
    }
}

/// Eight free blocks from this one on.
fn eight(alloc: Global, first: u32) -> Result<PxdList, AllocError>
    ensures { IfOk result (λ fresh. fresh ≡ record { len = 8; addr = first } ∷ []) }
{
    let mut fresh = PxdList::new(alloc);
    fresh.push(Pxd {
        len: 8,
        addr: u64::from(first),
    })?;
    Ok(fresh)
}
