use jfs_bits::Rule;
use jfs_logfmt::{Record, RecordError, read_record_before};
use std::alloc::{AllocError, Global};
use std::test::*;

const BLOCKS: u32 = 3008;

// A text by the fields that rules look at.
#[derive(Clone, Copy)]
struct Case {
    body: &'static [u8],
    number: u16,
    length: u16,
    kind: u16,
    count: u16,
    len: u8,
    addr: u32,
    rule: Option<Rule>,
}

fn given(
    body: &'static [u8],
    number: u16,
    length: u16,
    kind: u16,
    count: u16,
    len: u8,
    addr: u32,
    rule: Option<Rule>,
) -> Case {
    Case {
        body,
        number,
        length,
        kind,
        count,
        len,
        addr,
        rule,
    }
}

// The data, and then the descriptor of transaction 1.
fn text(alloc: Global, c: &Case) -> Result<Vec<u8>, AllocError> {
    let mut bytes = Vec::new(alloc);
    bytes.extend_from_slice(c.body)?;
    bytes.extend_from_slice(&[1, 0, 0, 0, 0, 0, 0, 0])?;
    bytes.extend_from_slice(&c.number.to_le_bytes())?;
    bytes.extend_from_slice(&c.length.to_le_bytes())?;
    bytes.extend_from_slice(&[0, 0, 0, 0, 16, 0, 0, 0, 4, 0, 0, 0])?;
    bytes.extend_from_slice(&c.kind.to_le_bytes())?;
    bytes.extend_from_slice(&c.count.to_le_bytes())?;
    bytes.extend_from_slice(&[c.len, 0, 0, 0])?;
    bytes.extend_from_slice(&c.addr.to_le_bytes())?;
    Ok(bytes)
}

// One line of 16 bytes, its place and one line; the same past its page; without a line.
const LINE: [u8; 20] = [1, 1, 1, 1, 1, 1, 1, 1, 1, 1, 1, 1, 1, 1, 1, 1, 255, 0, 1, 0];

const PAST: [u8; 20] = [1, 1, 1, 1, 1, 1, 1, 1, 1, 1, 1, 1, 1, 1, 1, 1, 0, 1, 1, 0];

const NO_LINE: [u8; 4] = [0, 0, 0, 0];

const RUN: [u8; 8] = [1, 0, 0, 0, 0xbf, 0x0b, 0, 0];

const RUN_OUTSIDE: [u8; 8] = [2, 0, 0, 0, 0xbf, 0x0b, 0, 0];

fn cases() -> [Case; 30] {
    [
        // The types of other logs.
        given(&[], 0x2000, 0, 0, 0, 0, 0, Some(Rule::BadType)),
        given(&[], 0x0040, 0, 0, 0, 0, 0, Some(Rule::BadType)),
        given(&[], 0x0001, 0, 0, 0, 0, 0, Some(Rule::BadType)),
        // Data that isn't there, data of a type that has none, runs that aren't counted.
        given(&[], 0x0800, 1, 2, 4, 1, 29, Some(Rule::Length)),
        given(&[0], 0x8000, 1, 0, 0, 0, 0, Some(Rule::Length)),
        given(&[0], 0x4000, 1, 0, 0, 0, 0, Some(Rule::Length)),
        given(&[0], 0x0080, 1, 2, 0, 1, 29, Some(Rule::Length)),
        given(&RUN, 0x0008, 8, 4, 2, 0, 0, Some(Rule::Length)),
        // A line size of another page type, or of none.
        given(&LINE, 0x0800, 20, 2, 5, 1, 29, Some(Rule::Lines)),
        given(&[], 0x0800, 0, 3, 6, 1, 29, Some(Rule::Lines)),
        // Ranges that don't fill their data, that have no line, that pass their page.
        given(&[9, 9, 9], 0x0800, 3, 2, 4, 1, 29, Some(Rule::Range)),
        given(&LINE, 0x0800, 20, 4, 5, 1, 29, Some(Rule::Range)),
        given(&NO_LINE, 0x0800, 4, 2, 4, 1, 29, Some(Rule::Range)),
        given(&PAST, 0x0800, 20, 2, 4, 1, 29, Some(Rule::Range)),
        given(&LINE, 0x0800, 20, 2, 4, 0, 29, Some(Rule::Range)),
        // Pages below 16 and past the blocks; an empty run by its address.
        given(&LINE, 0x0800, 20, 2, 4, 1, 15, Some(Rule::Place)),
        given(&LINE, 0x0800, 20, 2, 4, 1, 3008, Some(Rule::Place)),
        given(&LINE, 0x0800, 20, 2, 4, 2, 3007, Some(Rule::Place)),
        given(&[], 0x0800, 0, 2, 4, 0, 3008, Some(Rule::Place)),
        given(&[], 0x0080, 0, 9, 0, 1, 15, Some(Rule::Place)),
        given(&RUN_OUTSIDE, 0x0008, 8, 9, 1, 0, 0, Some(Rule::Place)),
        // Types that aren't used, and pages of another number of blocks.
        given(&[], 0x0800, 0, 2, 4, 0, 29, Some(Rule::Kind)),
        given(&[], 0x0800, 0, 3, 4, 1, 29, Some(Rule::Kind)),
        given(&[], 0x0800, 0, 0x101, 7, 1, 29, Some(Rule::Kind)),
        given(&[], 0x0080, 0, 0x102, 0, 1, 29, Some(Rule::Kind)),
        given(&RUN, 0x0008, 8, 0x80, 1, 0, 0, Some(Rule::Kind)),
        // Records.
        given(&LINE, 0x0800, 20, 2, 4, 1, 16, None),
        given(&[], 0x0800, 0, 0x101, 7, 4, 3004, None),
        given(&LINE, 0x0800, 20, 8, 4, 1, 3007, None),
        given(&RUN, 0x0008, 8, 4, 1, 0, 0, None),
    ]
}

// The rule that is refused, `None` where a record or no memory is.
fn rule_of(alloc: Global, bytes: &[u8]) -> Option<Rule> {
    match read_record_before(alloc, bytes, BLOCKS) {
        Err(RecordError::Bad(bad)) => Some(bad.rule),
        Err(RecordError::Memory) | Ok(_) => None,
    }
}

#[test]
fn first_rules(rt: HostRuntime) {
    let alloc = rt.alloc();
    assert_eq!(rt; rule_of(alloc, &[]), Some(Rule::BadType));
    assert_eq!(rt; rule_of(alloc, &[0x80; 35]), Some(Rule::BadType));
    for c in &cases() {
        let bytes = text(alloc, c).expect(&rt, "memory");
        assert_eq!(rt;
            rule_of(alloc, bytes.as_slice()),
            c.rule,
            "at {} {} {} {}",
            c.number,
            c.length,
            c.kind,
            c.addr
        );
    }
}

#[test]
fn longest_list(rt: HostRuntime) {
    let alloc = rt.alloc();
    let mut bytes = Vec::new(alloc);
    for _ in 0..8191 {
        bytes.extend_from_slice(&RUN).expect(&rt, "memory");
    }
    let whole = given(&[], 0x0008, 65528, 0x40, 8191, 0, 0, None);
    bytes
        .extend_from_slice(text(alloc, &whole).expect(&rt, "memory").as_slice())
        .expect(&rt, "memory");
    let Ok(
        (
            Record::Update {
                list,
                alloc: true,
                ..
            },
            0,
        ),
    ) = read_record_before(alloc, bytes.as_slice(), BLOCKS)
    else {
        panic!(rt; "this is a list");
    };
    assert_eq!(rt; list.len(), 8191);
}

#[test]
fn random_bytes(rt: HostRuntime) {
    let alloc = rt.alloc();
    let mut random = 88_172_645_463_325_252_u64;
    let mut refused = 0_u32;
    for round in 0..10_000_usize {
        let mut bytes = [0_u8; 96];
        for byte in &mut bytes {
            random ^= random << 13;
            random ^= random >> 7;
            random ^= random << 17;
            *byte = (random % 256) as u8;
        }
        if round % 2 == 1 {
            bytes[68] = 0;
            bytes[69] = 8;
            bytes[70] = (round % 64) as u8;
            bytes[71] = 0;
        }
        if rule_of(alloc, &bytes[..96 - round % 3]).is_some() {
            refused = refused.saturating_add(1);
        }
    }
    assert!(rt; refused > 9000);
}
