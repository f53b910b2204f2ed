//! The first rule, from the left, that a line breaks.

use crate::scripts::script_of;
use jfs_bits::Rule;
use jfs_script::ScriptError;
use std::alloc::Global;
use std::test::*;

/// Lines, and the rule that each breaks.
static RULES: [(&[u8], Option<Rule>); 51] = [
    // A byte that isn't printed, also where the word is unknown; a carriage return inside, and one without a line feed.
    (b"mkdir\t/a 0755", Some(Rule::Text)),
    (b"foo \x7f", Some(Rule::Text)),
    (b"stat /\xc3\xa4", Some(Rule::Text)),
    (b"sync\r", Some(Rule::Text)),
    (b"sync\r\r\n", Some(Rule::Text)),
    // Words.
    (b"foo", Some(Rule::Word)),
    (b"Sync", Some(Rule::Word)),
    (b"lazy foo", Some(Rule::Word)),
    (b"mkdir/a 0755", Some(Rule::Word)),
    // `lazy` before calls that don't change, before their words are counted.
    (b"lazy stat /", Some(Rule::Lazy)),
    (b"lazy stat", Some(Rule::Lazy)),
    (b"lazy sync", Some(Rule::Lazy)),
    (b"lazy read / 0 1", Some(Rule::Lazy)),
    (b"lazy list /", Some(Rule::Lazy)),
    (b"lazy readlink /", Some(Rule::Lazy)),
    // The number of words, before what they say.
    (b"lazy", Some(Rule::Count)),
    (b"sync now", Some(Rule::Count)),
    (b"mkdir a", Some(Rule::Count)),
    (b"stat", Some(Rule::Count)),
    (b"fill /f 0 1", Some(Rule::Count)),
    (b"lazy unlink /a /b", Some(Rule::Count)),
    // Paths.
    (b"stat a", Some(Rule::Path)),
    (b"stat //", Some(Rule::Path)),
    (b"stat /a/", Some(Rule::Path)),
    (b"stat /..", Some(Rule::Path)),
    (b"stat /%u0000", Some(Rule::Path)),
    (b"stat /%41", Some(Rule::Path)),
    (b"rename /a b", Some(Rule::Path)),
    (b"chmod a 9", Some(Rule::Path)),
    // Modes.
    (b"mkdir /a 0999", Some(Rule::Mode)),
    (b"mkdir /a 77", Some(Rule::Mode)),
    (b"mkdir /a 00755", Some(Rule::Mode)),
    (b"chmod /a -755", Some(Rule::Mode)),
    // Numbers, and then what stands behind them.
    (b"truncate /a -1", Some(Rule::Number)),
    (b"truncate /a +1", Some(Rule::Number)),
    (b"truncate /a 0x1", Some(Rule::Number)),
    (b"write /a x 4", Some(Rule::Number)),
    (b"fill /a 0 0 g", Some(Rule::Number)),
    // Hexadecimal digits, bytes, targets.
    (b"write /a 0 4", Some(Rule::Hex)),
    (b"write /a 0 4g", Some(Rule::Hex)),
    (b"fill /a 0 1 4", Some(Rule::Byte)),
    (b"fill /a 0 1 411", Some(Rule::Byte)),
    (b"fill /a 0 1 g1", Some(Rule::Byte)),
    (b"symlink /a %00", Some(Rule::Target)),
    (b"symlink /a x%4", Some(Rule::Target)),
    (b"symlink /a %u0041", Some(Rule::Target)),
    // Spaces at both ends and between, both cases of digits, an end with a carriage return.
    (b"  mkdir   /a  0755  ", None),
    (b"lazy   write /a 0 aB\r\n", None),
    (b"symlink /a %2F../%ff", None),
    (b"  # any \x01 byte", None),
    (b"   \r\n", None),
];

// The rule that the first line breaks, `None` where it breaks none; `Grow`, which no line breaks, for other answers.
fn rule_of(alloc: Global, line: &[u8]) -> Option<Rule> {
    match script_of(alloc, line) {
        Ok(_) => None,
        Err(ScriptError::BadScript { line: 1, rule }) => Some(rule),
        Err(_) => Some(Rule::Grow),
    }
}

#[test]
fn first_rules(rt: HostRuntime) {
    for (line, rule) in RULES.iter() {
        assert!(rt; rule_of(rt.alloc(), line) == *rule, "{rule:?} {line:?}");
    }
}

#[test]
fn first_bad_line(rt: HostRuntime) {
    let alloc = rt.alloc();
    let text = b"# one\n\r\nsync\n  \nstat a\nfoo\nsync\n";
    assert_eq!(rt;
        script_of(alloc, text).err(),
        Some(ScriptError::BadScript {
            line: 5,
            rule: Rule::Path
        })
    );
    let text = b"# one\n\r\nsync\n  \nlazy unlink /a\r\n#\nstat /";
    let lines = script_of(alloc, text).ok().expect(&rt, "a script");
    assert_eq!(rt; lines.len(), 3);
    assert_eq!(rt; lines[0].number, 3);
    assert_eq!(rt; lines[1].number, 5);
    assert!(rt; lines[1].request.lazy);
    assert_eq!(rt; lines[2].number, 7);
    assert!(rt; !lines[2].request.lazy);
}

static NOTHING: [&[u8]; 4] = [b"", b"\n", b"\n\n#\n", b"# sync"];

// How many lines a script has, if it is one.
fn line_count(alloc: Global, text: &[u8]) -> Option<usize> {
    match script_of(alloc, text) {
        Ok(lines) => Some(lines.len()),
        Err(_) => None,
    }
}

#[test]
fn nothing_asked(rt: HostRuntime) {
    for text in NOTHING.iter() {
        assert!(rt; line_count(rt.alloc(), text) == Some(0), "{text:?}");
    }
}
