//! The calls that a script asks for, on the volume.

ghost use Rattle.std.specs.Prelude.{IfSome};
ghost use Rattle.jfs_plain.specs.Limits.{FitsRequest};
ghost use Rattle.jfs_script.specs.Script.{AllFit};

use crate::volume::{BLOCKS, TestVolume, append, maps_of, put_data};
use jfs_bits::Moment;
use jfs_disk::{Disk, Part};
use jfs_files::{FileOutcome, Maps, file_call};
use jfs_io::SureSource;
use jfs_plain::{Line, Reply, Request};
use jfs_ranges::PageView;
use jfs_reader::DiskView;
use jfs_script::read_script;
use std::alloc::Global;

/// The lines of a script.
pub fn script_of(alloc: Global, text: &[u8]) -> Option<Vec<Line>>
    ensures { IfSome result (λ lines. AllFit lines.items) }
{
    let mut source = SureSource::new(Vec::from_slice(alloc, text).ok()?);
    read_script(alloc, &mut source).ok()
}

/// What a call answers. Nothing is said of it, so that no test is proved beside the clauses of all calls.
pub fn asked<V: PageView>(
    alloc: Global,
    view: &mut V,
    maps: &mut Maps,
    request: &Request,
    now: Moment,
) -> Option<FileOutcome>
    requires { FitsRequest request.now }
{
    if maps.blocks.blocks() != view.blocks() {
        return None;
    }
    Some(file_call(alloc, view, maps, request, now))
}

/// What a call answers on the volume.
fn answer(
    alloc: Global,
    volume: &mut TestVolume,
    request: &Request,
    now: Moment,
) -> Option<FileOutcome>
    requires { FitsRequest request.now }
{
    let mut maps = maps_of(alloc, volume)?;
    if volume.disk.pages() < BLOCKS {
        return None;
    }
    let mut view = DiskView::new(&mut volume.disk, Part::Whole, BLOCKS);
    asked(alloc, &mut view, &mut maps, request, now)
}

/// Does what a call's answer says; `None` where it can't be done.
fn done(volume: &mut TestVolume, outcome: FileOutcome) -> Option<Reply> {
    match outcome {
        FileOutcome::Changed { tx, blocks } => {
            if put_data(volume, &blocks) && append(volume, &tx) {
                Some(Reply::Done)
            } else {
                None
            }
        }
        FileOutcome::Same(reply) => Some(reply),
        FileOutcome::NeedsLog => None,
    }
}

/// Does what a call asks for, and answers it; `None` where it can't be done.
pub fn call_on(
    alloc: Global,
    volume: &mut TestVolume,
    request: &Request,
    now: Moment,
) -> Option<Reply>
    requires { FitsRequest request.now }
{
    let outcome = answer(alloc, volume, request, now)?;
    done(volume, outcome)
}
