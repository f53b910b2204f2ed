//! Writing a record as text.

ghost use Rattle.std.specs.Prelude.{◌≡◌, ◌+◌, ◌^◌, ◌<◌, ◌/◌, ◌++◌, length, flat_map, OnOk, OnErr};
ghost use Rattle.std.specs.List.{AllByRecursion};
ghost use Rattle.byteorder.specs.Endian.{little_bytes};
ghost use Rattle.jfs_bits.specs.Descriptor.{pxd_bytes, FitsPxd};
ghost use Rattle.jfs_logfmt.specs.Text.{Spells};
ghost use Rattle.jfs_logfmt.specs.Written.{range_text, body_text, head_of, described, text_of, FitsRange, Fits, IsLonger};

use crate::descriptor::{Descriptor, descriptor_text};
use crate::kind::{PageType, RecordType, map_type_number};
use crate::log_record::Record;
use jfs_bits::{LineRange, Pxd, PxdList, Ranges, put_pxd, put_u16};
use std::alloc::AllocError;

/// The 4 bytes that end a range.
fn place_text(first: u16, lines: u16) -> [u8; 4]
    ensures { result ≡ little_bytes 2 first ++ little_bytes 2 lines }
{
    let mut text = [0u8; 4];
    put_u16(&mut text, 0, first);
    put_u16(&mut text, 2, lines);
    text
}

/// Adds a range of lines of `size` bytes.
fn push_range(range: &LineRange, size: usize, into: &mut Vec<u8>) -> Result<(), AllocError>
    requires size { 0 < size }
    requires fits { FitsRange size range.now }
    ensures ok { OnOk result (into.new.items ≡ into.old.items ++ range_text size range.now) }
    ensures err { OnErr result (IsLonger into.old.items into.new.items) }
{
    let first = range.first;
    into.extend_from_slice(range.bytes.as_slice())?;
    let lines = range.bytes.len() / size;
    into.extend_from_slice(&place_text(first as u16, lines as u16))
}

/// Adds the ranges of a page with lines of `size` bytes.
fn push_ranges(ranges: &Ranges, size: usize, into: &mut Vec<u8>) -> Result<(), AllocError>
    requires size { 0 < size }
    requires fits { AllByRecursion (FitsRange size) ranges.now }
    ensures ok { OnOk result (into.new.items ≡ into.old.items ++ flat_map (range_text size) ranges.now) }
    ensures err { OnErr result (IsLonger into.old.items into.new.items) }
{
    for range in ranges.as_slice() {
        push_range(range, size, into)?;
    }
    Ok(())
}

/// The 8 bytes of a run.
fn run_text(at: Pxd) -> [u8; 8]
    requires { FitsPxd at }
    ensures { result ≡ pxd_bytes at }
{
    let mut text = [0u8; 8];
    put_pxd(&mut text, 0, at);
    text
}

/// Adds runs.
fn push_runs(list: &PxdList, into: &mut Vec<u8>) -> Result<(), AllocError>
    requires { AllByRecursion FitsPxd list.now }
    ensures ok { OnOk result (into.new.items ≡ into.old.items ++ flat_map pxd_bytes list.now) }
    ensures err { OnErr result (IsLonger into.old.items into.new.items) }
{
    for at in list.as_slice() {
        into.extend_from_slice(&run_text(*at))?;
    }
    Ok(())
}

/// Adds a record's data.
fn push_body(r: &Record, into: &mut Vec<u8>) -> Result<(), AllocError>
    requires { Fits r.now }
    ensures ok { OnOk result (into.new.items ≡ into.old.items ++ body_text r.now) }
    ensures err { OnErr result (IsLonger into.old.items into.new.items) }
{
    match r {
        Record::Redo { kind, ranges, .. } => push_ranges(ranges, kind.line_size(), into),
        Record::Update { list, .. } => push_runs(list, into),
        Record::NoRedo { .. } | Record::Commit { .. } | Record::SyncPt { .. } => Ok(()),
    }
}

/// A descriptor with nothing but its head.
fn head(of: RecordType, tid: u32, back: u32, length: u16) -> Descriptor
    ensures { result ≡ head_of of tid back length }
{
    Descriptor {
        tid,
        back,
        number: of.number(),
        length,
        fileset: 0,
        inode: 0,
        kind: 0,
        count: 0,
        at: Pxd { len: 0, addr: 0 },
    }
}

/// The descriptor of a record with so many bytes of data.
fn describe(r: &Record, length: u16) -> Descriptor
    requires { Fits r.now }
    ensures value { result ≡ described r.now length }
    ensures fits { FitsPxd result.at }
{
    match r {
        Record::Redo {
            tid,
            back,
            fileset,
            inode,
            kind,
            new_page,
            at,
            ..
        } => Descriptor {
            fileset: *fileset,
            inode: *inode,
            kind: PageType::new(*kind, *new_page).number(),
            count: kind.l2_line(),
            at: *at,
            ..head(RecordType::RedoPage, *tid, *back, length)
        },
        Record::NoRedo {
            tid,
            back,
            fileset,
            inode,
            kind,
            at,
        } => Descriptor {
            fileset: *fileset,
            inode: *inode,
            kind: PageType::new(*kind, false).number(),
            at: *at,
            ..head(RecordType::NoRedoPage, *tid, *back, length)
        },
        Record::Update {
            tid,
            back,
            fileset,
            inode,
            alloc,
            list,
        } => Descriptor {
            fileset: *fileset,
            inode: *inode,
            kind: map_type_number(*alloc),
            count: list.len() as u16,
            ..head(RecordType::UpdateMap, *tid, *back, length)
        },
        Record::Commit { tid, back } => head(RecordType::Commit, *tid, *back, length),
        Record::SyncPt { sync } => Descriptor {
            fileset: *sync,
            ..head(RecordType::SyncPt, 0, 0, length)
        },
    }
}

/// Adds a record's text.
fn push_text(r: &Record, into: &mut Vec<u8>) -> Result<(), AllocError>
    requires { Fits r.now }
    ensures ok { OnOk result (into.new.items ≡ into.old.items ++ text_of r.now) }
    ensures spells { OnOk result (Spells (text_of r.now) r.now) }
    ensures err { OnErr result (IsLonger into.old.items into.new.items) }
{
    let before = into.len();
    push_body(r, into)?;
    let length = (into.len() - before) as u16;
    let d = describe(r, length);
    into.extend_from_slice(&descriptor_text(d))
}

/// Adds the text of a record at the end, with zeros where nothing is used.
///
/// # Errors
///
/// Want of memory alone; the bytes are then as before.
#[tactic(auto, using(crate::proofs::Spelled::text_fits))]
pub fn write_record(r: &Record, into: &mut Vec<u8>) -> Result<(), AllocError>
    requires { Fits r.now }
    // What is added is the record's text.
    ensures ok { OnOk result (into.new.items ≡ into.old.items ++ text_of r.now) }
    // It spells that record.
    ensures spells { OnOk result (Spells (text_of r.now) r.now) }
    ensures most { length (text_of r.now) < 2 ^ 17 }
    ensures err { OnErr result (into.new.items ≡ into.old.items) }
{
    let before = into.len();
    match push_text(r, into) {
        Ok(()) => Ok(()),
        Err(e) => {
            into.truncate(before);
            Err(e)
        }
    }
}
