//! The records that the ring's text ends with, read backwards.

ghost use Rattle.std.specs.Prelude.{◌≡◌, ◌<◌, ◌≤◌, ◌+◌, ◌*◌, ◌/◌, ◌^◌, List, ◌∷◌, length, take, map, reverse, IfOk, IfErr, IfSome};
ghost use Rattle.jfs_logfmt.specs.Rules.{FirstBroken};
ghost use Rattle.jfs_logpages.specs.Back.{Met, IsMet, address_at, FromSync, BreaksAt, first_of, newest};
ghost use Rattle.jfs_logpages.specs.Outcome.{IsBadLog, IsPointOf, IsJudged};

use crate::chain::{backchain, is_followed};
use crate::error::RingError;
use crate::newest::lies_within;
use crate::place::Window;
use crate::point::Point;
use jfs_bits::Rule;
use jfs_logfmt::{Record, RecordError, read_record_before};
use std::alloc::Global;

/// Reads the record that ends behind the first `left` bytes of the text, and where it begins.
fn read_one(
    alloc: Global,
    text: &[u8],
    blocks: u32,
    left: usize,
    at: u32,
) -> Result<(Record, usize), RingError>
    requires { left ≤ length text.now }
    ensures found { IfOk result (λ x. IsMet blocks text.now (record { start = x.1; end = left; is = x.0 })) }
    ensures broken { IfErr result (IsBadLog (λ address rule. (address ≡ at) × FirstBroken blocks (take left text.now) rule)) }
{
    match read_record_before(alloc, &text[..left], blocks) {
        Ok(read) => Ok(read),
        Err(RecordError::Bad(bad)) => Err(RingError::BadLog {
            address: at,
            rule: bad.rule,
        }),
        Err(RecordError::Memory) => Err(RingError::Memory),
    }
}

/// Looks at the rules `chain` and `sync` of a record that was read at this address, and answers
/// whether redo begins at it.
fn judge(
    window: Window,
    at: u32,
    record: &Record,
    start: usize,
    end: usize,
    next: &Option<Record>,
    point: Option<Point>,
) -> Result<bool, RingError>
    requires ring { (0 < window.ring) × (window.ring < 2 ^ 16) }
    requires first { window.first < 2 ^ 40 }
    requires half { window.size ≤ 4080 * (window.ring / 2) }
    requires within { IfSome point (λ p. (0 < p.end) × (p.end ≤ window.size)) }
    requires address { at ≡ address_at window.ring window.first end }
    ensures { (ms : List Met) → next.now ≡ first_of ms → IsPointOf window.ring window.first window.size (newest (record { start = start; end = end; is = record.now } ∷ ms)) point
        → IsJudged window.ring window.first window.size (record { start = start; end = end; is = record.now }) ms result }
{
    if !is_followed(at, record, next) {
        return Err(RingError::BadLog {
            address: at,
            rule: Rule::Chain,
        });
    }
    if window.gives(point, end) {
        if backchain(record) != 0 {
            return Err(RingError::BadLog {
                address: at,
                rule: Rule::Chain,
            });
        }
        return Ok(true);
    }
    match point {
        Some(point) => {
            if !lies_within(point, start) {
                return Err(RingError::BadLog {
                    address: window.address(point.end),
                    rule: Rule::Sync,
                });
            }
            Ok(false)
        }
        None => Ok(false),
    }
}

/// Reads the records from the place on that the newest SYNCPT gives, from the end of the text
/// backwards, and answers where each ends, the last one first.
///
/// # Errors
///
/// The first rule that the text breaks, and where; or want of memory.
pub fn read_records(
    alloc: Global,
    text: &[u8],
    window: Window,
    blocks: u32,
) -> Result<Vec<u32>, RingError>
    requires size { window.size ≡ length text.now }
    requires ring { (0 < window.ring) × (window.ring < 2 ^ 16) }
    requires first { window.first < 2 ^ 40 }
    requires half { window.size ≤ 4080 * (window.ring / 2) }
    ensures found { IfOk result (λ ends. (m : Met) × (ms : List Met) × FromSync window.ring window.first blocks text.now m ms × (map (λ x. x.end) (m ∷ ms) ≡ reverse ends.items)) }
    ensures broken { IfErr result (IsBadLog (BreaksAt window.ring window.first blocks text.now)) }
{
    let mut ends = Vec::new(alloc);
    let mut next: Option<Record> = None;
    let mut point: Option<Point> = None;
    let mut left = text.len();
    while left > 0 {
        let at = window.address(left);
        let (record, start) = match read_one(alloc, text, blocks, left, at) {
            Ok(read) => read,
            Err(error) => return Err(error),
        };
        match ends.push(left as u32) {
            Ok(()) => {}
            Err(_) => return Err(RingError::Memory),
        }
        point = window.newer(point, &record, left);
        match judge(window, at, &record, start, left, &next, point) {
            Ok(true) => return Ok(ends),
            Ok(false) => {}
            Err(error) => return Err(error),
        }
        next = Some(record);
        left = start;
    }
    Err(RingError::BadLog {
        address: 0,
        rule: Rule::Sync,
    })
}
