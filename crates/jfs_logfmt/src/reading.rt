//! Reading a record from its text.

ghost use Rattle.std.specs.Prelude.{◌≡◌, ℕ, ◌+◌, ◌*◌, ◌^◌, ◌<◌, ◌≤◌, ◌++◌, true, List, length, drop, IfOk};
ghost use Rattle.jfs_bits.specs.Broken.{IsFirstBroken};
ghost use Rattle.jfs_bits.specs.Descriptor.{FitsPxd};
ghost use Rattle.jfs_bits.specs.declared.rule.Rule.{Rule};
ghost use Rattle.jfs_logfmt.specs.Kinds.{type_number};
ghost use Rattle.jfs_logfmt.specs.Descriptor.{descriptor_of};
ghost use Rattle.jfs_logfmt.specs.Text.{Says, Spells};
ghost use Rattle.jfs_logfmt.specs.Rules.{is_line, is_redone, is_freed, is_long, has_length, Keeps, record_rules, tail_of, body_of, FirstBroken, IsRecordOf, IfBad, IsRead};

use crate::descriptor::{Descriptor, get_descriptor};
use crate::kind::{PageType, RecordType, map_type_of};
use crate::log_record::{Record, RecordError, bad};
use crate::range::ranges_of;
use crate::run::{all_inside, is_of_pages, read_runs};
use jfs_bits::Rule;
use std::alloc::Global;

/// Whether this is a line size of such a page.
fn fits_line(page: Option<PageType>, l2: u16) -> bool
    ensures { result ≡ is_line page l2 }
{
    match page {
        None => l2 == 4 || l2 == 5 || l2 == 7,
        Some(page) => l2 == page.kind.l2_line(),
    }
}

/// Whether the length of the data is one of this type.
fn fits_type(of: RecordType, d: Descriptor) -> bool
    ensures { result ≡ is_long of d }
{
    match of {
        RecordType::RedoPage => true,
        RecordType::UpdateMap => u32::from(d.length) == 8 * u32::from(d.count),
        RecordType::Commit | RecordType::SyncPt | RecordType::NoRedoPage => d.length == 0,
    }
}

/// Reads lines of a page.
fn redo_of(alloc: Global, d: Descriptor, body: &[u8], blocks: u32) -> Result<Record, RecordError>
    requires number { d.number ≡ type_number RecordType.RedoPage }
    requires fits { FitsPxd d.at }
    requires bytes { length body.now < 2 ^ 16 }
    ensures found { IfOk result (λ r. Says d body.now r × IsRecordOf blocks r) }
    ensures broken { (left : ℕ) → has_length RecordType.RedoPage left d ≡ true → IfBad result (IsFirstBroken (Keeps RecordType.RedoPage blocks left d body.now) record_rules) }
{
    let page = PageType::of(d.kind);
    if !fits_line(page, d.count) {
        return Err(bad(Rule::Lines));
    }
    let ranges = ranges_of(alloc, body, 1 << d.count, d.at.len)?;
    if !is_of_pages(blocks, d.at) {
        return Err(bad(Rule::Place));
    }
    let Some(page) = page else {
        return Err(bad(Rule::Kind));
    };
    if d.at.len != page.blocks() {
        return Err(bad(Rule::Kind));
    }
    Ok(Record::Redo {
        tid: d.tid,
        back: d.back,
        fileset: d.fileset,
        inode: d.inode,
        kind: page.kind,
        new_page: page.new_page,
        at: d.at,
        ranges,
    })
}

/// Reads that a page's earlier records are not redone.
fn no_redo_of(d: Descriptor, body: &[u8], blocks: u32) -> Result<Record, RecordError>
    requires number { d.number ≡ type_number RecordType.NoRedoPage }
    requires fits { FitsPxd d.at }
    requires empty { length body.now ≡ 0 }
    ensures found { IfOk result (λ r. Says d body.now r × IsRecordOf blocks r) }
    ensures broken { (left : ℕ) → has_length RecordType.NoRedoPage left d ≡ true → IfBad result (IsFirstBroken (Keeps RecordType.NoRedoPage blocks left d body.now) record_rules) }
{
    if !is_of_pages(blocks, d.at) {
        return Err(bad(Rule::Place));
    }
    let Some(page) = PageType::of(d.kind) else {
        return Err(bad(Rule::Kind));
    };
    if page.new_page || d.at.len != 1 {
        return Err(bad(Rule::Kind));
    }
    Ok(Record::NoRedo {
        tid: d.tid,
        back: d.back,
        fileset: d.fileset,
        inode: d.inode,
        kind: page.kind,
        at: d.at,
    })
}

/// Reads a list of blocks.
fn update_of(alloc: Global, d: Descriptor, body: &[u8], blocks: u32) -> Result<Record, RecordError>
    requires number { d.number ≡ type_number RecordType.UpdateMap }
    requires long { length body.now ≡ 8 * d.count }
    ensures found { IfOk result (λ r. Says d body.now r × IsRecordOf blocks r) }
    ensures broken { (left : ℕ) → has_length RecordType.UpdateMap left d ≡ true → IfBad result (IsFirstBroken (Keeps RecordType.UpdateMap blocks left d body.now) record_rules) }
{
    if !all_inside(blocks, body, d.count) {
        return Err(bad(Rule::Place));
    }
    let Some(alloc_blocks) = map_type_of(d.kind) else {
        return Err(bad(Rule::Kind));
    };
    Ok(Record::Update {
        tid: d.tid,
        back: d.back,
        fileset: d.fileset,
        inode: d.inode,
        alloc: alloc_blocks,
        list: read_runs(alloc, body, d.count)?,
    })
}

/// Reads a record of this type.
fn record_of(
    alloc: Global,
    of: RecordType,
    d: Descriptor,
    body: &[u8],
    blocks: u32,
) -> Result<Record, RecordError>
    requires number { d.number ≡ type_number of }
    requires fits { FitsPxd d.at }
    requires long { length body.now ≡ d.length }
    requires bytes { length body.now < 2 ^ 16 }
    requires is_long { is_long of d ≡ true }
    ensures found { IfOk result (λ r. Says d body.now r × IsRecordOf blocks r) }
    ensures broken { (left : ℕ) → has_length of left d ≡ true → IfBad result (IsFirstBroken (Keeps of blocks left d body.now) record_rules) }
{
    match of {
        RecordType::RedoPage => redo_of(alloc, d, body, blocks),
        RecordType::NoRedoPage => no_redo_of(d, body, blocks),
        RecordType::UpdateMap => update_of(alloc, d, body, blocks),
        RecordType::Commit => Ok(Record::Commit {
            tid: d.tid,
            back: d.back,
        }),
        RecordType::SyncPt => Ok(Record::SyncPt { sync: d.fileset }),
    }
}

/// Reads the record that ends where the bytes end, and where it starts.
fn read_at_end(alloc: Global, bytes: &[u8], blocks: u32) -> Result<(Record, usize), RecordError>
    ensures found { IfOk result (λ x. Spells (drop x.1 bytes.now) x.0 × IsRecordOf blocks x.0) }
    ensures start { IfOk result (λ x. x.1 + (descriptor_of (tail_of bytes.now)).length + 36 ≡ length bytes.now) }
    ensures broken { IfBad result (FirstBroken blocks bytes.now) }
{
    if bytes.len() < 36 {
        return Err(bad(Rule::BadType));
    }
    let (front, tail) = bytes.split_at(bytes.len() - 36);
    let d = get_descriptor(tail);
    let Some(of) = RecordType::of(d.number) else {
        return Err(bad(Rule::BadType));
    };
    let long = usize::from(d.length);
    if front.len() < long || !fits_type(of, d) {
        return Err(bad(Rule::Length));
    }
    let start = front.len() - long;
    let (_, body) = front.split_at(start);
    let record = record_of(alloc, of, d, body, blocks)?;
    Ok((record, start))
}

/// Reads the record that ends where the bytes end, and where it starts.
/// `blocks` is the number of blocks of the file system part.
///
/// # Errors
///
/// The first rule that the bytes break, of `type`, `length`, `lines`, `range`, `place` and `kind`
/// in this order; or want of memory.
pub fn read_record_before(
    alloc: Global,
    bytes: &[u8],
    blocks: u32,
) -> Result<(Record, usize), RecordError>
    // What is read is spelled so, and keeps the rules.
    ensures found { IfOk result (λ x. (x.1 ≤ length bytes.now) × Spells (drop x.1 bytes.now) x.0 × IsRecordOf blocks x.0) }
    // It has 36 bytes at least, so whoever reads on before it comes to an end.
    ensures progress { IfOk result (λ x. x.1 + 36 ≤ length bytes.now) }
    // What is spelled so and keeps the rules is read, whatever stands before it.
    ensures whole { (front text : List ℕ) (r : Record) → bytes.now ≡ front ++ text → Spells text r → IsRecordOf blocks r → IsRead result (λ x. (x.0 ≡ r) × (x.1 ≡ length front)) }
    // Which rule is broken, and that none is where a record is read.
    ensures broken { IfBad result (FirstBroken blocks bytes.now) }
    ensures kept { IfOk result (λ _. (rule : Rule) → FirstBroken blocks bytes.now rule → ⊥) }
{
    read_at_end(alloc, bytes, blocks)
}
