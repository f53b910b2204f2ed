//! The line of each status that names a refusal or a fault.

ghost use Rattle.std.specs.Prelude.{◌≡◌, ◌++◌, ◌∷◌, [], OnOk, IfOk, codes};
ghost use Rattle.std.specs.Fmt.{decimal};
ghost use Rattle.jfs_bits.specs.Rule.{name_of};
ghost use Rattle.jfs_command.specs.Status.{line_of};
ghost use Rattle.jfs_command.specs.Text.{label_text};

use crate::status::Status;
use crate::text::label;
use jfs_bits::Rule;
use std::alloc::{AllocError, Global};

/// What is printed where memory ran out.
pub const OUT_OF_MEMORY: &[u8] = b"jfsd: out of memory\n";

/// The line of a status. One that comes after all of the work has none: the command's own text says all.
pub fn line_of(alloc: Global, status: Status) -> Result<Vec<u8>, AllocError>
    ensures { IfOk result (λ line. line.items ≡ line_of status) }
{
    match status {
        Status::Done | Status::Found { .. } | Status::SinkFault => Ok(Vec::new(alloc)),
        Status::Usage { word } => number_line(alloc, b"jfsd: usage: word ", word),
        Status::BadImage { page, rule, value } => bad_image_line(alloc, page, rule, value),
        Status::BadScript { client, line, rule } => bad_script_line(alloc, client, line, rule),
        Status::ScriptFault => Vec::from_slice(alloc, b"jfsd: script fault\n"),
        Status::DiskFault => Vec::from_slice(alloc, b"jfsd: disk fault\n"),
        Status::OutOfMemory => Vec::from_slice(alloc, OUT_OF_MEMORY),
        Status::ForeignLog { label } => foreign_log_line(alloc, &label),
        Status::BadLog { address, rule } => bad_log_line(alloc, address, rule),
        Status::TooMuch { count } => number_line(alloc, b"jfsd: too much: ", count),
        Status::BadSize { pages } => number_line(alloc, b"jfsd: bad size: ", pages),
    }
}

// A line that ends with a number.
fn number_line(alloc: Global, name: &[u8], number: u32) -> Result<Vec<u8>, AllocError>
    ensures { IfOk result (λ line. line.items ≡ name.now ++ decimal number ++ 10 ∷ []) }
{
    let mut out = Vec::new(alloc);
    push_number(alloc, &mut out, name, number.into())?;
    out.push(b'\n')?;
    Ok(out)
}

fn bad_image_line(alloc: Global, page: u32, rule: Rule, value: u64) -> Result<Vec<u8>, AllocError>
    ensures { IfOk result (λ line. line.items ≡ line_of (Status.BadImage page rule value)) }
{
    let mut out = Vec::new(alloc);
    push_number(alloc, &mut out, b"jfsd: bad image: page ", page.into())?;
    push_rule(&mut out, rule)?;
    push_number(alloc, &mut out, b" value ", value)?;
    out.push(b'\n')?;
    Ok(out)
}

fn bad_script_line(alloc: Global, client: u32, line: u32, rule: Rule) -> Result<Vec<u8>, AllocError>
    ensures { IfOk result (λ text. text.items ≡ line_of (Status.BadScript client line rule)) }
{
    let mut out = Vec::new(alloc);
    push_number(alloc, &mut out, b"jfsd: bad script: client ", client.into())?;
    push_number(alloc, &mut out, b" line ", line.into())?;
    push_rule(&mut out, rule)?;
    out.push(b'\n')?;
    Ok(out)
}

fn foreign_log_line(alloc: Global, of: &[u8; 16]) -> Result<Vec<u8>, AllocError>
    ensures { IfOk result (λ line. line.items ≡ line_of (Status.ForeignLog of.now)) }
{
    let mut out = Vec::new(alloc);
    out.extend_from_slice(b"jfsd: foreign log: ")?;
    out.extend_from_slice(&label(alloc, of)?)?;
    out.push(b'\n')?;
    Ok(out)
}

fn bad_log_line(alloc: Global, address: u32, rule: Rule) -> Result<Vec<u8>, AllocError>
    ensures { IfOk result (λ line. line.items ≡ line_of (Status.BadLog address rule)) }
{
    let mut out = Vec::new(alloc);
    push_number(alloc, &mut out, b"jfsd: bad log: address ", address.into())?;
    push_rule(&mut out, rule)?;
    out.push(b'\n')?;
    Ok(out)
}

fn push_number(alloc: Global, out: &mut Vec<u8>, name: &[u8], number: u64) -> Result<(), AllocError>
    ensures { OnOk result (out.new.items ≡ out.old.items ++ (name.now ++ decimal number)) }
{
    out.extend_from_slice(name)?;
    out.extend_from_slice(number.to_string(alloc)?.as_bytes())?;
    Ok(())
}

fn push_rule(out: &mut Vec<u8>, rule: Rule) -> Result<(), AllocError>
    ensures { OnOk result (out.new.items ≡ out.old.items ++ (codes " rule " ++ name_of rule)) }
{
    out.extend_from_slice(b" rule ")?;
    out.extend_from_slice(rule.name().as_bytes())?;
    Ok(())
}
