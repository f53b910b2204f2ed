//! The command `super`: it prints the superblock, or names what is wrong with it.

ghost use Rattle.std.specs.Prelude.{◌≡◌, ◌≤◌, IfOk};
ghost use Rattle.jfs_command.specs.Super.{super_text, super_meaning};
ghost use Rattle.jfs_command.specs.Meaning.{Performs};

use crate::outcome::{End, Outcome};
use crate::status::{Status, Stop};
use crate::superblock::look;
use crate::text::{hex, label, pair, push_line};
use jfs_disk::Disk;
use jfs_super::Super;
use std::alloc::{AllocError, Global};
use uuid::Uuid;

/// Reads the superblock of the disk and writes its lines.
pub fn show_super<D: Disk>(alloc: Global, disk: &mut D) -> Outcome
    ensures meaning { Performs D.Disk super_meaning disk.old disk.new result }
    ensures later { D.fault_count disk.old ≤ D.fault_count disk.new }
    ensures pages { D.page_count disk.new ≡ D.page_count disk.old }
{
    match look(disk) {
        Ok(s) => match super_lines(alloc, &s) {
            Ok(text) => Outcome::new(alloc, End::Own(Status::Done), text),
            Err(_) => Outcome::new(alloc, End::Stopped(Stop::Memory), Vec::new(alloc)),
        },
        Err(end) => Outcome::new(alloc, end, Vec::new(alloc)),
    }
}

/// The ten lines of a superblock.
#[tactic(auto, unfolding(crate::specs::Super::super_text))]
pub fn super_lines(alloc: Global, s: &Super) -> Result<Vec<u8>, AllocError>
    ensures { IfOk result (λ text. text.items ≡ super_text s.now) }
{
    let s = *s;
    let mut out = Vec::new(alloc);
    push_line(&mut out, b"magic", &s.magic.to_le_bytes())?;
    push_line(&mut out, b"version", s.version.to_string(alloc)?.as_bytes())?;
    push_line(
        &mut out,
        b"blocks",
        (s.size / 8).to_string(alloc)?.as_bytes(),
    )?;
    push_line(&mut out, b"agsize", s.agsize.to_string(alloc)?.as_bytes())?;
    push_line(&mut out, b"flags", hex(alloc, s.flag.0)?.as_bytes())?;
    push_line(&mut out, b"state", s.state.0.to_string(alloc)?.as_bytes())?;
    let log = pair(alloc, s.logpxd.addr, s.logpxd.len.into())?;
    push_line(&mut out, b"log", log.as_bytes())?;
    let work = pair(alloc, s.fsckpxd.addr, s.fsckpxd.len.into())?;
    push_line(&mut out, b"work", work.as_bytes())?;
    let mut buffer = Uuid::encode_buffer();
    let uuid = s.uuid.hyphenated().encode_lower(&mut buffer);
    push_line(&mut out, b"uuid", uuid.as_bytes())?;
    push_line(&mut out, b"label", &label(alloc, &s.label)?)?;
    Ok(out)
}
