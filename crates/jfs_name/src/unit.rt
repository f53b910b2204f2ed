//! One unit of a name in a text.

ghost use Rattle.std.specs.Prelude.{◌≡◌, ◌<◌, ◌≤◌, ◌+◌, ◌^◌, ℕ, IfOk, IfErr, IfSome, Some, None, length, slice_get, if◌then◌else◌};
ghost use Rattle.jfs_name.specs.Name.{IsUnit};
ghost use Rattle.jfs_name.specs.Text.{is_plain, digit_of, digit_at, UnitAt, UnitBreaks};

/// The unit that stands at a place and the place behind it, else the place where the text breaks.
pub fn read_unit(text: &[u8], at: usize) -> Result<(u16, usize), usize>
    requires { at + 6 < 2 ^ 64 }
    ensures unit { IfOk result (λ read. UnitAt text.now at read.0 read.1) }
    ensures bound { IfOk result (λ read. (at < read.1) × (read.1 ≤ length text.now)) }
    ensures fits { IfOk result (λ read. IsUnit read.0) }
    ensures broken { IfErr result (UnitBreaks text.now at) }
{
    match byte_at(text, at) {
        Some(b'%') => read_escape(text, at),
        Some(byte) if is_plain(byte) => Ok((u16::from(byte), at + 1)),
        _ => Err(at),
    }
}

/// The unit that `%u` and four hexadecimal digits spell.
fn read_escape(text: &[u8], at: usize) -> Result<(u16, usize), usize>
    requires room { at + 6 < 2 ^ 64 }
    requires begins { slice_get text.now at ≡ Some 37 }
    ensures unit { IfOk result (λ read. UnitAt text.now at read.0 read.1) }
    ensures bound { IfOk result (λ read. (at < read.1) × (read.1 ≤ length text.now)) }
    ensures fits { IfOk result (λ read. IsUnit read.0) }
    ensures broken { IfErr result (UnitBreaks text.now at) }
{
    if byte_at(text, at + 1) != Some(b'u') {
        return Err(at + 1);
    }
    let Some(first) = digit_at(text, at + 2) else {
        return Err(at + 2);
    };
    let Some(second) = digit_at(text, at + 3) else {
        return Err(at + 3);
    };
    let Some(third) = digit_at(text, at + 4) else {
        return Err(at + 4);
    };
    let Some(fourth) = digit_at(text, at + 5) else {
        return Err(at + 5);
    };
    let unit = ((first * 16 + second) * 16 + third) * 16 + fourth;
    if unit == 0 || unit == u16::from(b'/') {
        return Err(at + 5);
    }
    Ok((unit, at + 6))
}

/// The hexadecimal digit at a place.
fn digit_at(text: &[u8], at: usize) -> Option<u16>
    ensures value { result ≡ digit_at text.now at }
    ensures fits { IfSome result (λ digit. (digit < 16) × (at < length text.now)) }
{
    digit_of(byte_at(text, at)?)
}

/// The byte at a place.
fn byte_at(text: &[u8], at: usize) -> Option<u8>
    ensures { result ≡ slice_get text.now at }
{
    text.get(at).copied()
}

fn digit_of(byte: u8) -> Option<u16>
    ensures value { result ≡ digit_of byte }
    ensures fits { IfSome result (λ digit. digit < 16) }
{
    match byte {
        b'0'..=b'9' => Some(u16::from(byte - b'0')),
        b'A'..=b'F' => Some(u16::from(byte - b'A') + 10),
        b'a'..=b'f' => Some(u16::from(byte - b'a') + 10),
        _ => None,
    }
}

/// Whether a byte stands for itself in a name.
pub fn is_plain(byte: u8) -> bool
    ensures { result ≡ is_plain byte }
{
    (0x21..=0x7e).contains(&byte) && byte != b'%' && byte != b'/'
}
