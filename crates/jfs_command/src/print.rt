//! Text on its way to the sink.

ghost use Rattle.std.specs.Prelude.{◌≡◌, ◌≤◌, ◌++◌, OnOk};
ghost use Rattle.jfs_bits.specs.Count.{Rose};
ghost use Rattle.jfs_command.specs.Print.{Puts, PutsFront, Concludes};

use crate::line::{OUT_OF_MEMORY, line_of};
use crate::status::Status;
use jfs_io::{Sink, SinkError};
use std::alloc::Global;

/// Prints the text of a command and then its status's line, and answers the status that the run then has.
pub fn conclude<K: Sink>(alloc: Global, out: &mut K, status: Status, text: &[u8]) -> Status
    ensures text { Concludes K.tells (K.taken out.old) (K.taken out.new)
        (record { before = K.fault_count out.old; now = K.fault_count out.new }) text.now status result }
    ensures later { K.fault_count out.old ≤ K.fault_count out.new }
{
    match line_of(alloc, status) {
        Ok(line) => match put_both(out, text, &line) {
            Ok(()) => status,
            Err(SinkError::Failed) => status.after_sink_fault(),
            Err(SinkError::Memory) => Status::OutOfMemory,
        },
        Err(_) => {
            let _ = put_both(out, text, OUT_OF_MEMORY);
            Status::OutOfMemory
        }
    }
}

// Puts a text and then a line.
fn put_both<K: Sink>(out: &mut K, text: &[u8], line: &[u8]) -> Result<(), SinkError>
    ensures all { OnOk result (Puts K.tells (K.taken out.old) (K.taken out.new) (text.now ++ line.now)) }
    ensures front { PutsFront K.tells (K.taken out.old) (K.taken out.new) (text.now ++ line.now) }
    ensures same { OnOk result (K.fault_count out.new ≡ K.fault_count out.old) }
    ensures later { K.fault_count out.old ≤ K.fault_count out.new }
    ensures cause { result ≡ Err SinkError.Failed → Rose (K.fault_count out.old) (K.fault_count out.new) }
{
    put_all(out, text)?;
    put_all(out, line)
}

// Puts the pieces that are left until all are taken, or one isn't.
fn put_all<K: Sink>(out: &mut K, text: &[u8]) -> Result<(), SinkError>
    ensures all { OnOk result (Puts K.tells (K.taken out.old) (K.taken out.new) text.now) }
    ensures front { PutsFront K.tells (K.taken out.old) (K.taken out.new) text.now }
    ensures same { OnOk result (K.fault_count out.new ≡ K.fault_count out.old) }
    ensures later { K.fault_count out.old ≤ K.fault_count out.new }
    ensures cause { result ≡ Err SinkError.Failed → Rose (K.fault_count out.old) (K.fault_count out.new) }
{
    let mut rest = text;
    while !rest.is_empty() {
        let count = out.put(rest)?;
        if count == 0 {
            return Err(SinkError::Failed);
        }
        rest = &rest[count..];
    }
    Ok(())
}
