//! The command `log`: it prints the records of the log, or names what is wrong with the superblock or the log.

ghost use Rattle.std.specs.Prelude.{◌≡◌, ◌≤◌, drop};
ghost use Rattle.jfs_disk.specs.Image.{Image};
ghost use Rattle.jfs_super.specs.Rules.{IsAccepted, blocks_of};
ghost use Rattle.jfs_command.specs.Log.{HasLabel, LogEnds, end_of, log_meaning};
ghost use Rattle.jfs_command.specs.Meaning.{Performs};

use crate::log_text::log_lines;
use crate::outcome::{End, Outcome};
use crate::status::{Status, Stop};
use crate::superblock::look;
use jfs_disk::Disk;
use jfs_logpages::{RingError, read_ring};
use jfs_super::{Super, geometry};
use std::alloc::Global;

/// Reads the log of the disk and writes its lines.
pub fn show_log<D: Disk>(alloc: Global, disk: &mut D) -> Outcome
    ensures meaning { Performs D.Disk log_meaning disk.old disk.new result }
    ensures later { D.fault_count disk.old ≤ D.fault_count disk.new }
    ensures pages { D.page_count disk.new ≡ D.page_count disk.old }
{
    match look(disk) {
        Ok(s) => match read_lines(alloc, disk, &s) {
            Ok(text) => Outcome::new(alloc, End::Own(Status::Done), text),
            Err(end) => Outcome::new(alloc, end, Vec::new(alloc)),
        },
        Err(end) => Outcome::new(alloc, end, Vec::new(alloc)),
    }
}

// The lines of the log that an accepted superblock names.
fn read_lines<D: Disk>(alloc: Global, disk: &mut D, s: &Super) -> Result<Vec<u8>, End>
    requires { IsAccepted s.now (D.page_count disk.old) }
    ensures log { (image : Image) × (D.tells → image ≡ D.image disk.old) × LogEnds s.now.logpxd.len (blocks_of s.now) (drop s.now.logpxd.addr image)
        (record { before = D.fault_count disk.old; now = D.fault_count disk.new }) result }
    ensures later { D.fault_count disk.old ≤ D.fault_count disk.new }
    ensures pages { D.page_count disk.new ≡ D.page_count disk.old }
    ensures image { D.tells → D.image disk.new ≡ D.image disk.old }
    ensures past { D.tells_crashes → D.past disk.new ≡ D.past disk.old }
{
    let layout = geometry(s);
    match read_ring(alloc, disk, layout.log, layout.blocks) {
        Ok(read) => match log_lines(alloc, &read, layout.blocks) {
            Ok(text) => Ok(text.into_bytes()),
            Err(_) => Err(End::Stopped(Stop::Memory)),
        },
        Err(error) => Err(end_of(error)),
    }
}

// How a command ends whose log was not read.
fn end_of(error: RingError) -> End
    ensures is { result ≡ end_of error }
    ensures label { HasLabel error }
{
    match error {
        RingError::Read(_) => End::Stopped(Stop::Disk),
        RingError::ForeignLog { label } => {
            // so that the label's size is known
            let _bytes = label.as_slice();
            End::Own(Status::ForeignLog { label })
        }
        RingError::BadLog { address, rule } => End::Own(Status::BadLog { address, rule }),
        RingError::Memory => End::Stopped(Stop::Memory),
    }
}
