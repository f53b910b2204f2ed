//! Bytes as hexadecimal digits.

ghost use Rattle.std.specs.Prelude.{◌≡◌, ◌<◌, ◌*◌, ◌++◌, length, slice_index, OnOk};
ghost use Rattle.hex.specs.Hex.{encode_lower, lower_digits};

use std::alloc::{AllocError, Global};

/// Appends two digits for each byte.
pub(crate) fn push_digits(alloc: Global, into: &mut Vec<u8>, bytes: &[u8]) -> Result<(), AllocError>
    ensures { OnOk result (into.new.items ≡ into.old.items ++ encode_lower bytes.now) }
{
    let Some(count) = bytes.len().checked_mul(2) else {
        return Err(AllocError);
    };
    let mut text = vec![in alloc; 0u8; count]?;
    put_digits(text.as_mut_slice(), bytes);
    into.extend_from_slice(text.as_slice())
}

// Each digit is a sum, and none is looked up, so that the compiler writes many at once.
fn put_digits(text: &mut [u8], bytes: &[u8])
    requires { length text.old ≡ 2 * length bytes.now }
    ensures { text.new ≡ encode_lower bytes.now }
{
    for i in 0..bytes.len() {
        let byte = bytes[i];
        text[2 * i] = digit(byte / 16);
        text[2 * i + 1] = digit(byte % 16);
    }
}

fn digit(n: u8) -> u8
    requires { n < 16 }
    ensures { result ≡ slice_index lower_digits n }
{
    if n < 10 { b'0' + n } else { b'a' + (n - 10) }
}
