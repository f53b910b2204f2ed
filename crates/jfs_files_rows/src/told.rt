//! The calls that a script asks for, with the notes and the marks of their transactions.

ghost use Rattle.jfs_plain.specs.Limits.{FitsRequest};
ghost use Rattle.jfs_script.specs.Script.{AllFit};

use crate::calls::{asked, script_of};
use crate::volume::{BLOCKS, TestVolume, append, maps_of, new_volume, put_data};
use jfs_bits::Moment;
use jfs_disk::{Disk, Part};
use jfs_files::{DataList, FileOutcome, Maps};
use jfs_marks::{Marking, frees_behind, inode_marks, is_loggable, notes_of};
use jfs_plain::{Line, Request};
use jfs_ranges::{PageView, Tx};
use jfs_reader::DiskView;
use jfs_records::Notes;
use std::alloc::Global;

/// What a call answered with a transaction, and what is told of it.
#[derive(Drop)]
pub struct Told {
    pub tx: Tx,
    pub data: DataList,
    pub notes: Notes,
    pub marking: Marking,
    /// Whether it can be logged, and frees behind all that it takes.
    pub loggable: bool,
}

fn notes_on<V: PageView>(alloc: Global, view: &mut V, tx: &Tx) -> Option<Notes> {
    notes_of(alloc, view, tx).ok()
}

fn marking_on<V: PageView>(view: &mut V, maps: &Maps, tx: &Tx, data: &DataList) -> Option<Marking> {
    inode_marks(view, &maps.inodes, tx, data).ok()
}

fn is_sound(tx: &Tx, notes: &Notes) -> bool {
    notes.len() == tx.len() && is_loggable(BLOCKS, tx, notes) && frees_behind(tx)
}

/// What is told of a transaction, and of blocks of files that are written before it.
fn told_by<V: PageView>(
    alloc: Global,
    view: &mut V,
    maps: &Maps,
    tx: Tx,
    data: DataList,
) -> Option<Told> {
    let notes = notes_on(alloc, view, &tx);
    let marking = marking_on(view, maps, &tx, &data);
    match (notes, marking) {
        (Some(notes), Some(marking)) => {
            let loggable = is_sound(&tx, &notes);
            Some(Told {
                tx,
                data,
                notes,
                marking,
                loggable,
            })
        }
        _ => None,
    }
}

/// What a call tells.
fn told_on<V: PageView>(
    alloc: Global,
    view: &mut V,
    maps: &mut Maps,
    request: &Request,
    now: Moment,
) -> Option<Told>
    requires { FitsRequest request.now }
{
    match asked(alloc, view, maps, request, now) {
        Some(FileOutcome::Changed { tx, blocks }) => told_by(alloc, view, maps, tx, blocks),
        _ => None,
    }
}

/// What a call tells on the volume.
fn told_of(alloc: Global, volume: &mut TestVolume, request: &Request, now: Moment) -> Option<Told>
    requires { FitsRequest request.now }
{
    let mut maps = maps_of(alloc, volume)?;
    if volume.disk.pages() < BLOCKS {
        return None;
    }
    let mut view = DiskView::new(&mut volume.disk, Part::Whole, BLOCKS);
    told_on(alloc, &mut view, &mut maps, request, now)
}

/// Does a call, and what it tells; `None` where it changes nothing.
fn call(alloc: Global, volume: &mut TestVolume, request: &Request, now: Moment) -> Option<Told>
    requires { FitsRequest request.now }
{
    let told = told_of(alloc, volume, request, now)?;
    if put_data(volume, &told.data) && append(volume, &told.tx) {
        Some(told)
    } else {
        None
    }
}

/// What the last of these lines tells; every line changes something.
fn last_of(alloc: Global, volume: &mut TestVolume, lines: &[Line]) -> Option<Told>
    requires { AllFit lines.now }
{
    let mut told = None;
    for line in lines.iter() {
        let now = Moment {
            sec: line.number.saturating_add(2000),
            nano: 9,
        };
        told = call(alloc, volume, &line.request, now);
        if told.is_none() {
            return None;
        }
    }
    told
}

/// The same of a script, on a new volume.
pub fn last(alloc: Global, text: &[u8]) -> Option<Told> {
    let lines = script_of(alloc, text)?;
    let mut volume = new_volume(alloc)?;
    last_of(alloc, &mut volume, &lines)
}
