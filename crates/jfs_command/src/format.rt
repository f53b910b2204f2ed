//! The command `format`: it writes an empty volume over all pages of the disk.

ghost use Rattle.std.specs.Prelude.{◌≡◌, ◌≤◌, ◌++◌, IfOk, OnOk, string_bytes};
ghost use Rattle.jfs_format.specs.Layout.{owned_blocks};
ghost use Rattle.jfs_command.specs.Format.{counts_text, format_text, end_of, format_meaning};
ghost use Rattle.jfs_command.specs.Meaning.{Performs};

use crate::outcome::{End, Outcome};
use crate::status::{Status, Stop};
use jfs_bits::Moment;
use jfs_disk::Disk;
use jfs_format::{FormatError, Layout, format};
use std::alloc::{AllocError, Global};
use std::fmt::Write;
use uuid::Uuid;

/// Writes the volume and the line that tells its blocks.
pub fn format_volume<D: Disk>(
    alloc: Global,
    disk: &mut D,
    uuid: Uuid,
    label: &[u8; 16],
    now: Moment,
) -> Outcome
    ensures meaning { Performs D.Disk (format_meaning uuid label.now now) disk.old disk.new result }
    ensures later { D.fault_count disk.old ≤ D.fault_count disk.new }
    ensures pages { D.page_count disk.new ≡ D.page_count disk.old }
{
    let pages = disk.pages();
    match format(disk, uuid, label, now) {
        Ok(()) => match format_line(alloc, Layout::of(pages)) {
            Ok(text) => Outcome::new(alloc, End::Own(Status::Done), text.into_bytes()),
            Err(_) => Outcome::new(alloc, End::Stopped(Stop::Memory), Vec::new(alloc)),
        },
        Err(error) => Outcome::new(alloc, end_of(error), Vec::new(alloc)),
    }
}

// How the command ends where no volume was made.
fn end_of(error: FormatError) -> End
    ensures { result ≡ end_of error }
{
    match error {
        FormatError::BadSize { pages } => End::Own(Status::BadSize { pages }),
        FormatError::Disk(_) => End::Stopped(Stop::Disk),
    }
}

fn format_line(alloc: Global, layout: Layout) -> Result<String, AllocError>
    requires { owned_blocks layout ≤ layout.blocks }
    ensures { IfOk result (λ text. string_bytes text ≡ format_text layout) }
{
    let mut out = String::new(alloc);
    push_counts(&mut out, layout.blocks, layout.free())?;
    Ok(out)
}

fn push_counts(out: &mut String, blocks: u32, free: u32) -> Result<(), AllocError>
    ensures { OnOk result (string_bytes out.new ≡ string_bytes out.old ++ counts_text blocks free) }
{
    match write!(out, "formatted {blocks} blocks, {free} free\n") {
        Ok(()) => Ok(()),
        Err(e) => Err(e),
    }
}
