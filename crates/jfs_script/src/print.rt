//! The text of a history's entry.

ghost use Rattle.std.specs.Prelude.{◌≡◌, ◌<◌, ◌++◌, ◌∷◌, [], OnOk};
ghost use Rattle.std.specs.List.{flat_map};
ghost use Rattle.std.specs.Fmt.{decimal};
ghost use Rattle.jfs_name.specs.Spelled.{digit_byte};
ghost use Rattle.jfs_script.specs.Text.{kind_text, octal_text, number_text, stat_text, hex_text, target_byte, name_text, part_text, values_text, refusal_text, reply_text, entry_text};

use crate::pairs::push_digits;
use jfs_bits::{Blob, Rule};
use jfs_disk::{Fault, Part};
use jfs_name::{NameList, write_name};
use jfs_plain::{Entry, NodeKind, Refusal, Reply, Stat};
use std::alloc::{AllocError, Global};

/// Writes the line of the `number`-th entry of a history; `durable` says whether its client was told that it is.
#[tactic(auto, unfolding(crate::specs::Text::entry_text))]
pub fn write_entry(
    alloc: Global,
    e: &Entry,
    number: u64,
    durable: bool,
    into: &mut Vec<u8>,
) -> Result<(), AllocError>
    ensures { OnOk result (into.new.items ≡ into.old.items ++ entry_text e.now number durable) }
{
    push_decimal(alloc, into, number)?;
    push_number(alloc, into, u64::from(e.client))?;
    into.push(b'.')?;
    push_decimal(alloc, into, u64::from(e.line))?;
    into.push(b' ')?;
    push_reply(alloc, into, &e.reply)?;
    into.extend_from_slice(if durable { b" +" } else { b" -" })?;
    into.push(b'\n')?;
    Ok(())
}

fn push_reply(alloc: Global, into: &mut Vec<u8>, reply: &Reply) -> Result<(), AllocError>
    ensures { OnOk result (into.new.items ≡ into.old.items ++ reply_text reply.now) }
{
    match reply {
        Reply::Done => into.extend_from_slice(b"ok"),
        Reply::Bytes(bytes) => {
            into.extend_from_slice(b"bytes ")?;
            push_hex(alloc, into, bytes)
        }
        Reply::Attr(stat) => push_stat(alloc, into, stat),
        Reply::Names(names) => push_names(alloc, into, names),
        Reply::Target(target) => {
            into.extend_from_slice(b"target ")?;
            push_target(into, target)
        }
        Reply::Refused(refusal) => push_refusal(alloc, into, *refusal),
    }
}

fn push_hex(alloc: Global, into: &mut Vec<u8>, bytes: &Blob) -> Result<(), AllocError>
    ensures { OnOk result (into.new.items ≡ into.old.items ++ hex_text bytes.now) }
{
    if bytes.is_empty() {
        into.push(b'-')?;
        return Ok(());
    }
    push_digits(alloc, into, bytes.as_slice())
}

#[tactic(auto, unfolding(crate::specs::Text::stat_text))]
fn push_stat(alloc: Global, into: &mut Vec<u8>, stat: &Stat) -> Result<(), AllocError>
    ensures { OnOk result (into.new.items ≡ into.old.items ++ stat_text stat.now) }
{
    into.extend_from_slice(b"stat ")?;
    into.extend_from_slice(kind_bytes(stat.kind))?;
    into.push(b' ')?;
    into.extend_from_slice(&octal(stat.mode))?;
    push_number(alloc, into, u64::from(stat.nlink))?;
    push_number(alloc, into, u64::from(stat.uid))?;
    push_number(alloc, into, u64::from(stat.gid))?;
    push_number(alloc, into, stat.size)?;
    push_number(alloc, into, u64::from(stat.inode))?;
    push_number(alloc, into, u64::from(stat.mtime.sec))
}

fn kind_bytes(kind: NodeKind) -> &'static [u8]
    ensures { result.now ≡ kind_text kind }
{
    match kind {
        NodeKind::Dir => b"dir",
        NodeKind::File => b"file",
        NodeKind::Link => b"link",
        NodeKind::Other => b"other",
    }
}

fn octal(n: u32) -> [u8; 4]
    ensures { result ≡ octal_text n }
{
    [
        b'0' + (n / 512 % 8) as u8,
        b'0' + (n / 64 % 8) as u8,
        b'0' + (n / 8 % 8) as u8,
        b'0' + (n % 8) as u8,
    ]
}

fn push_names(alloc: Global, into: &mut Vec<u8>, names: &NameList) -> Result<(), AllocError>
    ensures { OnOk result (into.new.items ≡ into.old.items ++ reply_text (Reply.Names names.now)) }
{
    into.extend_from_slice(b"names")?;
    push_number(alloc, into, names.len() as u64)?;
    push_name_texts(into, names)
}

fn push_name_texts(into: &mut Vec<u8>, names: &NameList) -> Result<(), AllocError>
    ensures { OnOk result (into.new.items ≡ into.old.items ++ flat_map name_text names.now) }
{
    for entry in names.as_slice() {
        into.push(b' ')?;
        write_name(entry.name.as_slice(), into)?;
    }
    Ok(())
}

fn push_target(into: &mut Vec<u8>, target: &Blob) -> Result<(), AllocError>
    ensures { OnOk result (into.new.items ≡ into.old.items ++ flat_map target_byte target.now) }
{
    for byte in target.as_slice() {
        push_target_byte(into, *byte)?;
    }
    Ok(())
}

#[tactic(auto, unfolding(crate::specs::Text::target_byte))]
fn push_target_byte(into: &mut Vec<u8>, byte: u8) -> Result<(), AllocError>
    ensures { OnOk result (into.new.items ≡ into.old.items ++ target_byte byte) }
{
    if 0x21 <= byte && byte <= 0x7e && byte != b'%' {
        into.push(byte)?;
    } else {
        into.push(b'%')?;
        into.push(digit_byte(byte / 16))?;
        into.push(digit_byte(byte % 16))?;
    }
    Ok(())
}

fn digit_byte(digit: u8) -> u8
    requires { digit < 16 }
    ensures { result ≡ digit_byte digit }
{
    if digit < 10 {
        b'0' + digit
    } else {
        b'A' + (digit - 10)
    }
}

#[tactic(auto, unfolding(crate::specs::Text::refusal_text))]
fn push_refusal(alloc: Global, into: &mut Vec<u8>, refusal: Refusal) -> Result<(), AllocError>
    ensures { OnOk result (into.new.items ≡ into.old.items ++ refusal_text refusal) }
{
    into.extend_from_slice(b"refused")?;
    push_number(alloc, into, u64::from(refusal.number()))?;
    into.push(b' ')?;
    into.extend_from_slice(refusal.name().as_bytes())?;
    push_values(alloc, into, refusal)
}

fn push_values(alloc: Global, into: &mut Vec<u8>, refusal: Refusal) -> Result<(), AllocError>
    ensures { OnOk result (into.new.items ≡ into.old.items ++ values_text refusal) }
{
    match refusal {
        Refusal::NoSpace { free } => push_number(alloc, into, u64::from(free)),
        Refusal::ReadOnly { fault } => push_fault(alloc, into, fault),
        Refusal::IoFault { fault } => push_fault(alloc, into, fault),
        Refusal::Damaged { page, rule } => push_damage(alloc, into, page, rule),
        Refusal::TooDeep { inode } => push_number(alloc, into, u64::from(inode)),
        _ => Ok(()),
    }
}

fn push_fault(alloc: Global, into: &mut Vec<u8>, fault: Fault) -> Result<(), AllocError>
    ensures { OnOk result (into.new.items ≡ into.old.items ++ values_text (Refusal.IoFault fault)) }
{
    into.push(b' ')?;
    into.extend_from_slice(match fault.part {
        Part::High => b"log",
        Part::Low | Part::Whole => b"low",
    })?;
    push_number(alloc, into, fault.count)
}

fn push_damage(alloc: Global, into: &mut Vec<u8>, page: u32, rule: Rule) -> Result<(), AllocError>
    ensures { OnOk result (into.new.items ≡ into.old.items ++ values_text (Refusal.Damaged page rule)) }
{
    push_number(alloc, into, u64::from(page))?;
    into.push(b' ')?;
    into.extend_from_slice(rule.name().as_bytes())
}

fn push_number(alloc: Global, into: &mut Vec<u8>, number: u64) -> Result<(), AllocError>
    ensures { OnOk result (into.new.items ≡ into.old.items ++ number_text number) }
{
    into.push(b' ')?;
    push_decimal(alloc, into, number)
}

pub(crate) fn push_decimal(alloc: Global, into: &mut Vec<u8>, number: u64) -> Result<(), AllocError>
    ensures { OnOk result (into.new.items ≡ into.old.items ++ decimal number) }
{
    into.extend_from_slice(number.to_string(alloc)?.as_bytes())
}
