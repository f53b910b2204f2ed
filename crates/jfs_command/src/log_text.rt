//! The printed records of a log.

ghost use Rattle.std.specs.Prelude.{◌≡◌, ◌<◌, ◌≤◌, ◌+◌, ◌*◌, ◌/◌, ◌^◌, ◌++◌, ◌∷◌, [], ℕ, List, length, map, reverse, OnOk, IfOk, string_bytes};
ghost use Rattle.std.specs.Fmt.{decimal};
ghost use Rattle.std.specs.List.{flat_map};
ghost use Rattle.jfs_bits.specs.Line.{line_size};
ghost use Rattle.jfs_logpages.specs.Back.{Met, IsMet, AreMet, address_at, tid_of};
ghost use Rattle.jfs_command.specs.LogText.{type_name, kind_name, page_name, owner_words, page_words, number_word, range_word, run_word, words_of, record_line, last_line, log_text};

use jfs_bits::{PageKind, Pxd, PxdList, Ranges};
use jfs_logfmt::{Record, RecordError, read_record_before};
use jfs_logpages::RingText;
use std::alloc::{AllocError, Global};
use std::fmt::Write;

/// The lines of the records that were read of a log's ring, on a volume of so many blocks, and the line that counts them.
pub fn log_lines(alloc: Global, read: &RingText, blocks: u32) -> Result<String, AllocError>
    requires { (m : Met) × (ms : List Met) × AreMet blocks read.now.bytes.items m.start (m ∷ ms) × (map (λ x. x.end) (m ∷ ms) ≡ reverse read.now.ends.items) }
    ensures { IfOk result (λ text. (ms : List Met) → (from : ℕ) → AreMet blocks read.now.bytes.items from ms → map (λ x. x.end) ms ≡ reverse read.now.ends.items
        → string_bytes text ≡ log_text read.now.ring read.now.first (length read.now.bytes.items) ms) }
{
    let mut out = String::new(alloc);
    let mut rest = read.ends();
    while let Some((end, newer)) = rest.split_last() {
        push_record(alloc, &mut out, read, blocks, *end)?;
        rest = newer;
    }
    push_last(&mut out, read.ends().len(), read.end())?;
    Ok(out)
}

// Adds the line of the record that ends there.
fn push_record(
    alloc: Global,
    out: &mut String,
    read: &RingText,
    blocks: u32,
    end: u32,
) -> Result<(), AllocError>
    requires { (m : Met) × IsMet blocks read.now.bytes.items m × (m.end ≡ end) }
    ensures { OnOk result ((m : Met) → IsMet blocks read.now.bytes.items m → m.end ≡ end
        → string_bytes out.new ≡ string_bytes out.old ++ record_line (address_at read.now.ring read.now.first m.end) m.is) }
{
    let end = end as usize;
    match read_record_before(alloc, &read.bytes()[..end], blocks) {
        Ok((found, _)) => push_line(out, read.address(end), &found),
        Err(RecordError::Memory) => Err(AllocError),
        Err(RecordError::Bad(_)) => unreachable!(),
    }
}

#[tactic(auto, unfolding(crate::specs::LogText::record_line))]
fn push_line(out: &mut String, address: u32, found: &Record) -> Result<(), AllocError>
    ensures { OnOk result (string_bytes out.new ≡ string_bytes out.old ++ record_line address found.now) }
{
    write!(out, "{address} {} {}", transaction(found), type_name(found))?;
    push_words(out, found)?;
    out.push_str("\n")
}

fn push_words(out: &mut String, found: &Record) -> Result<(), AllocError>
    ensures { OnOk result (string_bytes out.new ≡ string_bytes out.old ++ words_of found.now) }
{
    match found {
        Record::Redo {
            fileset,
            inode,
            kind,
            new_page,
            at,
            ranges,
            ..
        } => {
            push_owner(out, *fileset, *inode)?;
            push_page(out, *kind, *new_page, *at)?;
            push_ranges(out, *kind, ranges)
        }
        Record::NoRedo {
            fileset,
            inode,
            kind,
            at,
            ..
        } => {
            push_owner(out, *fileset, *inode)?;
            push_page(out, *kind, false, *at)
        }
        Record::Update {
            fileset,
            inode,
            alloc,
            list,
            ..
        } => {
            push_owner(out, *fileset, *inode)?;
            out.push_str(if *alloc { " ALLOC" } else { " FREE" })?;
            push_runs(out, list)
        }
        Record::Commit { .. } => Ok(()),
        Record::SyncPt { sync } => push_number(out, *sync),
    }
}

fn push_number(out: &mut String, number: u32) -> Result<(), AllocError>
    ensures { OnOk result (string_bytes out.new ≡ string_bytes out.old ++ number_word number) }
{
    match write!(out, " {number}") {
        Ok(()) => Ok(()),
        Err(e) => Err(e),
    }
}

fn push_owner(out: &mut String, fileset: u32, inode: u32) -> Result<(), AllocError>
    ensures { OnOk result (string_bytes out.new ≡ string_bytes out.old ++ owner_words fileset inode) }
{
    match write!(out, " {fileset} {inode}") {
        Ok(()) => Ok(()),
        Err(e) => Err(e),
    }
}

fn push_page(out: &mut String, kind: PageKind, new_page: bool, at: Pxd) -> Result<(), AllocError>
    ensures { OnOk result (string_bytes out.new ≡ string_bytes out.old ++ page_words (page_name kind new_page) at) }
{
    out.push_str(" ")?;
    out.push_str(kind_name(kind))?;
    if new_page {
        out.push_str("+NEW")?;
    }
    write!(out, " {} {}", at.addr, at.len)
}

fn push_ranges(out: &mut String, kind: PageKind, ranges: &Ranges) -> Result<(), AllocError>
    ensures { OnOk result (string_bytes out.new ≡ string_bytes out.old ++ flat_map (range_word (line_size kind)) ranges.now) }
{
    for range in ranges.as_slice() {
        let lines = range.bytes.len() / kind.line_size();
        write!(out, " {}+{lines}", range.first)?;
    }
    Ok(())
}

fn push_runs(out: &mut String, list: &PxdList) -> Result<(), AllocError>
    ensures { OnOk result (string_bytes out.new ≡ string_bytes out.old ++ flat_map run_word list.now) }
{
    for run in list.as_slice() {
        write!(out, " {}:{}", run.addr, run.len)?;
    }
    Ok(())
}

// The number of records, and the address where they end.
fn push_last(out: &mut String, count: usize, end: u32) -> Result<(), AllocError>
    ensures { OnOk result (string_bytes out.new ≡ string_bytes out.old ++ last_line count end) }
{
    match write!(out, "log {count} records, end {end}\n") {
        Ok(()) => Ok(()),
        Err(e) => Err(e),
    }
}

fn transaction(found: &Record) -> u32
    ensures { result ≡ tid_of found.now }
{
    match found {
        Record::Redo { tid, .. }
        | Record::NoRedo { tid, .. }
        | Record::Update { tid, .. }
        | Record::Commit { tid, .. } => *tid,
        Record::SyncPt { .. } => 0,
    }
}

fn type_name(found: &Record) -> &'static str
    ensures { result.now ≡ type_name found.now }
{
    match found {
        Record::Redo { .. } => "REDOPAGE",
        Record::NoRedo { .. } => "NOREDOPAGE",
        Record::Update { .. } => "UPDATEMAP",
        Record::Commit { .. } => "COMMIT",
        Record::SyncPt { .. } => "SYNCPT",
    }
}

fn kind_name(kind: PageKind) -> &'static str
    ensures { result.now ≡ kind_name kind }
{
    match kind {
        PageKind::Inode => "INODE",
        PageKind::Xtree => "XTREE",
        PageKind::Dtree => "DTREE",
        PageKind::Index => "INDEX",
    }
}
