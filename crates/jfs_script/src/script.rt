//! Scripts read from a source.

ghost use Rattle.std.specs.Prelude.{◌≡◌, ◌≤◌, ◌++◌, ℕ, List, IfOk};
ghost use Rattle.jfs_script.specs.Script.{Means, LeavesNone, AllFit};

use crate::error::ScriptError;
use crate::reader::Reader;
use jfs_io::{IoFailed, Source};
use jfs_plain::Line;
use std::alloc::Global;

/// The greatest number of bytes of a script.
const MOST_BYTES: usize = 16_777_216;

/// The greatest number of bytes of one piece of the source.
const PIECE: usize = 4096;

/// The calls of a script, each with the number of its line. All lines are read before one is answered as bad. Memory is
/// taken for the line that is open and for the calls.
pub fn read_script<S: Source>(alloc: Global, source: &mut S) -> Result<Vec<Line>, ScriptError>
    // A source that tells its bytes has the script; of another one the bytes that it gave are.
    ensures answer { (script : List ℕ) × (S.tells → script ≡ S.remaining source.old) × Means script (S.fault_count source.old) (S.fault_count source.new) result }
    ensures rest { S.tells → LeavesNone (S.remaining source.new) result }
    ensures fits { IfOk result (λ lines. AllFit lines.items) }
    ensures later { S.fault_count source.old ≤ S.fault_count source.new }
{
    let mut reader = Reader::new(alloc);
    let mut buffer = [0; PIECE];
    let mut taken = 0;
    while taken <= MOST_BYTES {
        let room = PIECE.min(MOST_BYTES + 1 - taken);
        let count = match source.take(&mut buffer[..room]) {
            Ok(count) => count,
            Err(IoFailed) => return Err(ScriptError::Fault),
        };
        if count == 0 {
            return reader.finish(alloc);
        }
        reader.read_piece(alloc, &buffer[..count])?;
        taken += count;
    }
    Err(ScriptError::TooMuch {
        count: MOST_BYTES as u32 + 1,
    })
}
