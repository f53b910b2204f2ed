//! A script while it is read, piece by piece.

ghost use Rattle.std.specs.Prelude.{◌≡◌, ◌<◌, ◌≤◌, ◌+◌, ◌++◌, ◌∷◌, [], ℕ, List, OnOk, IfErr, IfOk, MatchOption, Ok, Err, length};
ghost use Rattle.jfs_script.specs.Lines.{without_return};
ghost use Rattle.jfs_script.specs.Progress.{NoFeed, IsRead, Judged, IsStopped, IsFinished};

use crate::error::{LineError, ScriptError};
use crate::line::read_line;
use jfs_bits::Rule;
use jfs_plain::Line;
use std::alloc::Global;

/// The greatest number of lines of a script.
const MOST_LINES: u32 = 4096;

/// A line that breaks a rule.
#[derive(Clone, Copy, PartialEq, Eq, Debug)]
pub struct BadLine {
    pub number: u32,
    pub rule: Rule,
}

/// What was read of a script.
#[derive(Debug, Drop)]
pub struct Reader {
    /// The calls of the lines that have ended, up to the first bad one.
    pub asked: Vec<Line>,
    /// The first bad line.
    pub bad: Option<BadLine>,
    /// How many lines have ended.
    pub ended: u32,
    /// The bytes of the line that hasn't ended.
    pub open: Vec<u8>,
}

impl Reader {
    /// Nothing is read.
    pub fn new(alloc: Global) -> Reader
        ensures read { IsRead [] result }
        ensures few { result.ended ≤ 4096 }
    {
        Reader {
            asked: Vec::new(alloc),
            bad: None,
            ended: 0,
            open: Vec::new(alloc),
        }
    }

    /// Reads a further piece of the script.
    pub fn read_piece(&mut self, alloc: Global, piece: &[u8]) -> Result<(), ScriptError>
        requires { self.old.ended ≤ 4096 }
        ensures few { OnOk result (self.new.ended ≤ 4096) }
        ensures ok { OnOk result ((front : List ℕ) → IsRead front self.old → IsRead (front ++ piece.now) self.new) }
        ensures err { IfErr result (λ e. (front : List ℕ) → IsRead front self.old → IsStopped e (front ++ piece.now)) }
    {
        let mut rest = piece;
        while !rest.is_empty() {
            if self.ended == MOST_LINES {
                return Err(ScriptError::TooMuch {
                    count: MOST_LINES + 1,
                });
            }
            match split_line(rest) {
                Some((line, after)) => {
                    self.end_line(alloc, line)?;
                    rest = after;
                }
                None => {
                    self.open.extend_from_slice(rest)?;
                    return Ok(());
                }
            }
        }
        Ok(())
    }

    /// The open line ends with these bytes and a line feed.
    fn end_line(&mut self, alloc: Global, bytes: &[u8]) -> Result<(), ScriptError>
        requires few { self.old.ended < 4096 }
        requires no_feed { NoFeed bytes.now }
        ensures count { OnOk result (self.new.ended ≡ self.old.ended + 1) }
        ensures ok { OnOk result ((front : List ℕ) → IsRead front self.old → IsRead (front ++ (bytes.now ++ 10 ∷ [])) self.new) }
        ensures err { IfErr result (λ e. e ≡ ScriptError.Memory) }
    {
        self.open.extend_from_slice(bytes)?;
        let line = without_return(&self.open);
        self.bad = judge(alloc, &mut self.asked, self.bad, self.ended + 1, line)?;
        self.ended += 1;
        self.open.clear();
        Ok(())
    }

    /// The script ends here.
    pub fn finish(self, alloc: Global) -> Result<Vec<Line>, ScriptError>
        requires { self.ended ≤ 4096 }
        ensures { (front : List ℕ) → IsRead front self → IsFinished front result }
    {
        let Reader {
            mut asked,
            mut bad,
            ended,
            open,
        } = self;
        if !open.is_empty() {
            bad = judge(alloc, &mut asked, bad, ended + 1, &open)?;
        }
        match bad {
            None => Ok(asked),
            Some(bad) => Err(ScriptError::BadScript {
                line: bad.number,
                rule: bad.rule,
            }),
        }
    }
}

/// Reads a line, unless an earlier one is bad already.
fn judge(
    alloc: Global,
    asked: &mut Vec<Line>,
    bad: Option<BadLine>,
    number: u32,
    line: &[u8],
) -> Result<Option<BadLine>, ScriptError>
    ensures ok { IfOk result (λ now. (ended : List (List ℕ)) → number ≡ length ended + 1 → Judged ended bad asked.old.items → Judged (ended ++ line.now ∷ []) now asked.new.items) }
    ensures err { IfErr result (λ e. e ≡ ScriptError.Memory) }
{
    if let Some(bad) = bad {
        return Ok(Some(bad));
    }
    match read_line(alloc, line) {
        Ok(None) => Ok(None),
        Ok(Some(request)) => {
            asked.push(Line { number, request })?;
            Ok(None)
        }
        Err(LineError::Broken(rule)) => Ok(Some(BadLine { number, rule })),
        Err(LineError::Memory) => Err(ScriptError::Memory),
    }
}

/// What stands before the first line feed, and what stands behind it.
fn split_line(text: &[u8]) -> Option<(&[u8], &[u8])>
    ensures { MatchOption result (NoFeed text.now) (λ parts. NoFeed parts.0.now × (text.now ≡ parts.0.now ++ 10 ∷ parts.1.now)) }
{
    for (i, byte) in text.iter().enumerate() {
        if *byte == b'\n' {
            return Some((&text[..i], &text[i + 1..]));
        }
    }
    None
}

/// The bytes without a carriage return at their end.
fn without_return(bytes: &[u8]) -> &[u8]
    ensures { result.now ≡ without_return bytes.now }
{
    let Some((last, front)) = bytes.split_last() else {
        return bytes;
    };
    if *last == b'\r' { front } else { bytes }
}
