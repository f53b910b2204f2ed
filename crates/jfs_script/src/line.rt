//! A line of a script.

ghost use Rattle.std.specs.Prelude.{◌≡◌};
ghost use Rattle.jfs_script.specs.Lines.{is_skipped, is_text, words_of};
ghost use Rattle.jfs_script.specs.Words.{Gives, PathIs, PathAlone, PathAndMode, TwoPaths, PathAndTarget, PathAndSize, PathAndBytes, PathAndRange, PathAndFill};
ghost use Rattle.jfs_script.specs.Line.{LineIs, RequestIs, LazyCallIs, CallIs};

use crate::error::LineError;
use crate::number::{byte_of, count_of, hex_of, mode_of, number_of};
use crate::target::target_of;
use crate::verb::{Verb, is_word};
use crate::word::{
    after_spaces, four_words, next_word, no_words, one_word, three_words, two_words,
};
use jfs_bits::{Blob, Rule};
use jfs_name::{Path, PathError};
use jfs_plain::{Call, Request};
use std::alloc::Global;

/// The greatest numbers of bytes that one call reads, and fills.
const MOST_READ: u32 = 4096;

const MOST_FILLED: u32 = 65_536;

/// What a line asks for; None where it is skipped.
pub fn read_line(alloc: Global, line: &[u8]) -> Result<Option<Request>, LineError>
    ensures { Gives result (LineIs line.now) }
{
    if is_skipped(line) {
        return Ok(None);
    }
    if !is_text(line) {
        return Err(LineError::Broken(Rule::Text));
    }
    Ok(Some(read_request(alloc, line)?))
}

fn is_skipped(line: &[u8]) -> bool
    ensures { result ≡ is_skipped line.now }
{
    match after_spaces(line).first() {
        None => true,
        Some(first) => *first == b'#',
    }
}

fn is_text(line: &[u8]) -> bool
    ensures { result ≡ is_text line.now }
{
    line.iter().all(|b| 0x20 <= *b && *b <= 0x7e)
}

fn read_request(alloc: Global, line: &[u8]) -> Result<Request, LineError>
    ensures { Gives result (RequestIs (words_of line.now)) }
{
    let Some((word, rest)) = next_word(line) else {
        return Err(LineError::Broken(Rule::Count));
    };
    if is_word(word, b"lazy") {
        return Ok(Request {
            call: read_lazy_call(alloc, rest)?,
            lazy: true,
        });
    }
    match Verb::of(word) {
        Some(verb) => Ok(Request {
            call: read_call(alloc, verb, rest)?,
            lazy: false,
        }),
        None => Err(LineError::Broken(Rule::Word)),
    }
}

fn read_lazy_call(alloc: Global, text: &[u8]) -> Result<Call, LineError>
    ensures { Gives result (LazyCallIs (words_of text.now)) }
{
    let Some((word, rest)) = next_word(text) else {
        return Err(LineError::Broken(Rule::Count));
    };
    match Verb::of(word) {
        Some(verb) if verb.may_be_lazy() => read_call(alloc, verb, rest),
        Some(_) => Err(LineError::Broken(Rule::Lazy)),
        None => Err(LineError::Broken(Rule::Word)),
    }
}

fn read_call(alloc: Global, verb: Verb, text: &[u8]) -> Result<Call, LineError>
    ensures { Gives result (CallIs verb (words_of text.now)) }
{
    match verb {
        Verb::Mkdir => {
            let (path, mode) = path_and_mode(alloc, text)?;
            Ok(Call::Mkdir { path, mode })
        }
        Verb::Create => {
            let (path, mode) = path_and_mode(alloc, text)?;
            Ok(Call::Create { path, mode })
        }
        Verb::Chmod => {
            let (path, mode) = path_and_mode(alloc, text)?;
            Ok(Call::Chmod { path, mode })
        }
        Verb::Symlink => {
            let (path, target) = path_and_target(alloc, text)?;
            Ok(Call::Symlink { path, target })
        }
        Verb::Link => {
            let (from, to) = two_paths(alloc, text)?;
            Ok(Call::Link { from, to })
        }
        Verb::Rename => {
            let (from, to) = two_paths(alloc, text)?;
            Ok(Call::Rename { from, to })
        }
        Verb::Unlink => {
            let path = path_alone(alloc, text)?;
            Ok(Call::Unlink { path })
        }
        Verb::Rmdir => {
            let path = path_alone(alloc, text)?;
            Ok(Call::Rmdir { path })
        }
        Verb::Stat => {
            let path = path_alone(alloc, text)?;
            Ok(Call::Stat { path })
        }
        Verb::List => {
            let path = path_alone(alloc, text)?;
            Ok(Call::List { path })
        }
        Verb::Readlink => {
            let path = path_alone(alloc, text)?;
            Ok(Call::Readlink { path })
        }
        Verb::Write => {
            let (path, offset, bytes) = path_and_bytes(alloc, text)?;
            Ok(Call::Write {
                path,
                offset,
                bytes,
            })
        }
        Verb::Fill => {
            let (path, offset, count, byte) = path_and_fill(alloc, MOST_FILLED, text)?;
            Ok(Call::Fill {
                path,
                offset,
                count,
                byte,
            })
        }
        Verb::Truncate => {
            let (path, size) = path_and_size(alloc, text)?;
            Ok(Call::Truncate { path, size })
        }
        Verb::Read => {
            let (path, offset, count) = path_and_range(alloc, MOST_READ, text)?;
            Ok(Call::Read {
                path,
                offset,
                count,
            })
        }
        Verb::Sync => {
            no_words(text)?;
            Ok(Call::Sync)
        }
    }
}

fn path_of(alloc: Global, word: &[u8]) -> Result<Path, LineError>
    ensures { Gives result (PathIs word.now) }
{
    match jfs_name::read_path(alloc, word) {
        Ok(path) => Ok(path),
        Err(PathError::BadPath { .. }) => Err(LineError::Broken(Rule::Path)),
        Err(PathError::NameTooLong { .. }) => Err(LineError::Broken(Rule::Name)),
        Err(PathError::Memory) => Err(LineError::Memory),
    }
}

fn path_alone(alloc: Global, text: &[u8]) -> Result<Path, LineError>
    ensures { Gives result (PathAlone (words_of text.now)) }
{
    path_of(alloc, one_word(text)?)
}

fn path_and_mode(alloc: Global, text: &[u8]) -> Result<(Path, u32), LineError>
    ensures { Gives result (PathAndMode (words_of text.now)) }
{
    let (path, mode) = two_words(text)?;
    let path = path_of(alloc, path)?;
    let mode = mode_of(mode)?;
    Ok((path, mode))
}

fn two_paths(alloc: Global, text: &[u8]) -> Result<(Path, Path), LineError>
    ensures { Gives result (TwoPaths (words_of text.now)) }
{
    let (from, to) = two_words(text)?;
    let from = path_of(alloc, from)?;
    let to = path_of(alloc, to)?;
    Ok((from, to))
}

fn path_and_target(alloc: Global, text: &[u8]) -> Result<(Path, Blob), LineError>
    ensures { Gives result (PathAndTarget (words_of text.now)) }
{
    let (path, target) = two_words(text)?;
    let path = path_of(alloc, path)?;
    let target = target_of(alloc, target)?;
    Ok((path, target))
}

fn path_and_size(alloc: Global, text: &[u8]) -> Result<(Path, u64), LineError>
    ensures { Gives result (PathAndSize (words_of text.now)) }
{
    let (path, size) = two_words(text)?;
    let path = path_of(alloc, path)?;
    let size = number_of(size)?;
    Ok((path, size))
}

fn path_and_bytes(alloc: Global, text: &[u8]) -> Result<(Path, u64, Blob), LineError>
    ensures { Gives result (PathAndBytes (words_of text.now)) }
{
    let (path, offset, bytes) = three_words(text)?;
    let path = path_of(alloc, path)?;
    let offset = number_of(offset)?;
    let bytes = hex_of(alloc, bytes)?;
    Ok((path, offset, bytes))
}

fn path_and_range(alloc: Global, most: u32, text: &[u8]) -> Result<(Path, u64, u32), LineError>
    ensures { Gives result (PathAndRange most (words_of text.now)) }
{
    let (path, offset, count) = three_words(text)?;
    let path = path_of(alloc, path)?;
    let offset = number_of(offset)?;
    let count = count_of(most, offset, count)?;
    Ok((path, offset, count))
}

fn path_and_fill(alloc: Global, most: u32, text: &[u8]) -> Result<(Path, u64, u32, u8), LineError>
    ensures { Gives result (PathAndFill most (words_of text.now)) }
{
    let (path, offset, count, byte) = four_words(text)?;
    let path = path_of(alloc, path)?;
    let offset = number_of(offset)?;
    let count = count_of(most, offset, count)?;
    let byte = byte_of(byte)?;
    Ok((path, offset, count, byte))
}
