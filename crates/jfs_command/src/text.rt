//! Lines of printed text.

ghost use Rattle.std.specs.Prelude.{◌≡◌, ◌<◌, ◌≤◌, ◌++◌, ◌∷◌, [], OnOk, IfOk, string_bytes, length};
ghost use Rattle.std.specs.Fmt.{decimal};
ghost use Rattle.std.specs.List.{flat_map};
ghost use Rattle.jfs_command.specs.Text.{line, pair_text, hex_digit, hex_text, label_byte, label_text, trimmed};

use std::alloc::{AllocError, Global};

/// Adds a line of a name and a value.
pub fn push_line(out: &mut Vec<u8>, name: &[u8], value: &[u8]) -> Result<(), AllocError>
    ensures { OnOk result (out.new.items ≡ out.old.items ++ line name.now value.now) }
{
    out.extend_from_slice(name)?;
    out.push(b' ')?;
    out.extend_from_slice(value)?;
    out.push(b'\n')?;
    Ok(())
}

/// Two numbers with a space between.
pub fn pair(alloc: Global, a: u64, b: u64) -> Result<String, AllocError>
    ensures { IfOk result (λ text. string_bytes text ≡ pair_text a b) }
{
    format!(in alloc; "{a} {b}")
}

/// Eight hexadecimal digits.
pub fn hex(alloc: Global, n: u32) -> Result<String, AllocError>
    ensures { IfOk result (λ text. string_bytes text ≡ hex_text n) }
{
    hex::encode(alloc, n.to_be_bytes())
}

/// A label without its padding; a dash where nothing is left.
#[tactic(auto, unfolding(crate::specs::Text::label_text))]
pub fn label(alloc: Global, bytes: &[u8]) -> Result<Vec<u8>, AllocError>
    ensures { IfOk result (λ text. text.items ≡ label_text bytes.now) }
{
    let out = label_bytes(alloc, without_padding(bytes))?;
    if out.is_empty() {
        return Vec::from_slice(alloc, b"-");
    }
    Ok(out)
}

fn label_bytes(alloc: Global, bytes: &[u8]) -> Result<Vec<u8>, AllocError>
    ensures { IfOk result (λ text. text.items ≡ flat_map label_byte bytes.now) }
{
    let mut out = Vec::new(alloc);
    for byte in bytes {
        push_label_byte(&mut out, *byte)?;
    }
    Ok(out)
}

// The bytes before the zeros at the end. By hand: std trims text, and of `rposition` a run of calls is known, which
// would have to be brought to the same lemma.
fn without_padding(bytes: &[u8]) -> &[u8]
    ensures { result.now ≡ trimmed bytes.now }
{
    let mut rest = bytes;
    while let Some((last, front)) = rest.split_last() {
        if *last != 0 {
            return rest;
        }
        rest = front;
    }
    rest
}

// By hand: the kit's `percent_encoding` names its bytes by a mask of 128 bits, which says less than a range of bytes.
#[tactic(auto, unfolding(crate::specs::Text::label_byte))]
fn push_label_byte(out: &mut Vec<u8>, byte: u8) -> Result<(), AllocError>
    ensures { OnOk result (out.new.items ≡ out.old.items ++ label_byte byte) }
{
    if 0x21 <= byte && byte <= 0x7e && byte != b'%' {
        out.push(byte)?;
    } else {
        out.push(b'%')?;
        out.push(digit_of(byte / 16))?;
        out.push(digit_of(byte % 16))?;
    }
    Ok(())
}

fn digit_of(digit: u8) -> u8
    requires { digit < 16 }
    ensures { result ≡ hex_digit digit }
{
    if digit < 10 {
        b'0' + digit
    } else {
        b'A' + digit - 10
    }
}
