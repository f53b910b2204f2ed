//! Why a script isn't read.

ghost use Rattle.std.specs.Prelude.{◌≡◌};
ghost use Rattle.jfs_script.specs.declared.error.LineError.TheVariants as lines;
ghost use Rattle.jfs_script.specs.declared.error.ScriptError.TheVariants as scripts;

use jfs_bits::Rule;
use std::alloc::{AllocError, AllocFailed};

/// Why a script isn't read.
#[derive(Clone, Copy, PartialEq, Eq, Debug)]
pub enum ScriptError {
    /// The source failed.
    Fault,
    /// The script has more lines, or more bytes, than a script may have: the first number past the limit that is met.
    TooMuch { count: u32 },
    /// The first line that breaks a rule of the grammar, counted from 1, and the first rule from the left that it breaks.
    BadScript { line: u32, rule: Rule },
    Memory,
}

/// Why a line isn't read.
#[derive(Clone, Copy, PartialEq, Eq, Debug)]
pub enum LineError {
    Broken(Rule),
    Memory,
}

impl From<Rule> for LineError {
    ghost from_gives = { λ rule e. e ≡ lines.Broken rule };

    fn from(rule: Rule) -> LineError {
        LineError::Broken(rule)
    }
}

impl From<AllocError> for LineError {
    ghost from_gives = { λ _ e. e ≡ lines.Memory };

    fn from(_e: AllocError) -> LineError {
        LineError::Memory
    }
}

impl From<AllocError> for ScriptError {
    ghost from_gives = { λ _ e. e ≡ scripts.Memory };

    fn from(_e: AllocError) -> ScriptError {
        ScriptError::Memory
    }
}

impl<T: Drop> From<AllocFailed<T>> for ScriptError {
    ghost from_gives = { λ _ e. e ≡ scripts.Memory };

    fn from(_e: AllocFailed<T>) -> ScriptError {
        ScriptError::Memory
    }
}
