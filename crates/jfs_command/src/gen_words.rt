//! The words of `gen`.

ghost use Rattle.std.specs.Prelude.{◌≡◌, ◌<◌, ◌+◌, ◌*◌, ◌^◌};
ghost use Rattle.std.specs.Option.{SomeIff};
ghost use Rattle.jfs_script.specs.Number.{numeral};
ghost use Rattle.jfs_command.specs.Words.{texts, begins_well, number_up_to, generate, with_clients, with_calls, with_number, image_and_numbers};

use crate::words::{Command, Job, Usage, is_name};

/// The greatest number of generated calls of a client.
const MOST_CALLS: u64 = 4094;

/// The greatest number of clients.
const MOST_CLIENTS: u64 = 16;

/// The words of `gen` behind the first: an image and three numbers.
pub fn image_and_numbers(words: &[Vec<u8>]) -> Result<Command, Usage>
    ensures { result ≡ image_and_numbers (texts words.now) }
{
    match words {
        [image, rest @ ..] if is_name(image) => with_number(rest),
        _ => Err(Usage { word: 2 }),
    }
}

fn with_number(words: &[Vec<u8>]) -> Result<Command, Usage>
    ensures { result ≡ with_number (texts words.now) }
{
    match words {
        [word, rest @ ..] => match number_up_to(u64::MAX, word) {
            Some(number) => with_calls(number, rest),
            None => Err(Usage { word: 3 }),
        },
        [] => Err(Usage { word: 3 }),
    }
}

fn with_calls(number: u64, words: &[Vec<u8>]) -> Result<Command, Usage>
    ensures { result ≡ with_calls number (texts words.now) }
{
    match words {
        [word, rest @ ..] => match number_up_to(MOST_CALLS, word) {
            Some(calls) => with_clients(number, calls as u32, rest),
            None => Err(Usage { word: 4 }),
        },
        [] => Err(Usage { word: 4 }),
    }
}

fn with_clients(number: u64, calls: u32, words: &[Vec<u8>]) -> Result<Command, Usage>
    ensures { result ≡ with_clients number calls (texts words.now) }
{
    match words {
        [word, rest @ ..] => match number_up_to(MOST_CLIENTS, word) {
            Some(clients) if clients >= 1 => generate(number, calls, clients as u32, rest),
            _ => Err(Usage { word: 5 }),
        },
        [] => Err(Usage { word: 5 }),
    }
}

// Behind the numbers stands nothing.
fn generate(number: u64, calls: u32, clients: u32, words: &[Vec<u8>]) -> Result<Command, Usage>
    ensures { result ≡ generate number calls clients (texts words.now) }
{
    match words {
        [] => Ok(Command::on_image(Job::Generate {
            number,
            calls,
            clients,
        })),
        _ => Err(Usage { word: 6 }),
    }
}

// A number in decimal digits without a zero in front, up to this one.
fn number_up_to(most: u64, word: &[u8]) -> Option<u64>
    ensures { result ≡ number_up_to most word.now }
{
    if !begins_well(word) {
        return None;
    }
    match numeral(word) {
        Some(number) if number <= most => Some(number),
        _ => None,
    }
}

fn begins_well(word: &[u8]) -> bool
    ensures { result ≡ begins_well word.now }
{
    !matches!(word, [] | [b'0', _, ..])
}

// The number of 64 bits that decimal digits spell.
fn numeral(word: &[u8]) -> Option<u64>
    ensures { result ≡ numeral 10 word.now }
{
    let mut value = 0;
    for byte in word {
        if *byte < b'0' || *byte > b'9' {
            return None;
        }
        match with_digit(value, *byte - b'0') {
            Some(longer) => value = longer,
            None => return None,
        }
    }
    Some(value)
}

// The number with a further digit, if 64 bits have room for it.
fn with_digit(value: u64, digit: u8) -> Option<u64>
    ensures { SomeIff result (value * 10 + digit < 2 ^ 64) (value * 10 + digit) }
{
    value.checked_mul(10)?.checked_add(u64::from(digit))
}
