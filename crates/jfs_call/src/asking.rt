//! A file call on a mounted volume.

ghost use Rattle.std.specs.Prelude.{◌≡◌, ◌≤◌, length};
ghost use Rattle.jfs_disk.specs.Image.{page_of};
ghost use Rattle.jfs_plain.specs.Limits.{FitsRequest};
ghost use Rattle.jfs_volume_calls.specs.volume.specs.Asked.{IsAskedOf};
ghost use Rattle.jfs_call.specs.Asked.{AnswersFile};
ghost use Rattle.jfs_call.specs.Needs.{AnswersOf};

use jfs_bits::Moment;
use jfs_disk::Disk;
use jfs_files::{FileOutcome, file_call};
use jfs_map_files::Maps;
use jfs_plain::Request;
use jfs_ranges::PageView;
use jfs_volume_calls::volume::{Asks, Volume};
use std::alloc::Global;
use std::marker::Model;

/// A request at a moment, and what it is answered.
#[derive(Drop)]
struct FileAsk<'a> {
    alloc: Global,
    request: &'a Request,
    now: Moment,
    answer: FileOutcome,
}

impl<'a> Model for FileAsk<'a> {
    ghost use Rattle.jfs_plain.specs.Limits.{FitsRequest};
    ghost use Rattle.jfs_call.specs.Question.{Question};

    ghost Value = { Question };

    ghost view = { λ a. record { request = a.request.now; now = a.now; answer = a.answer } };

    ghost invariant = { λ a. FitsRequest a.request.now };
}

impl<'a> Asks for FileAsk<'a> {
    ghost answers = { λ tells blocks image old new before later asks asked. AnswersFile tells blocks (page_of image) asks.request asks.now old new before later asked.answer };

    fn ask<V: PageView>(&mut self, view: &mut V, maps: &mut Maps) {
        self.answer = file_call(self.alloc, view, maps, self.request, self.now);
    }
}

/// What a call does to the volume at this moment, as `file_call` answers it: pages stay as they are, and the blocks that a transaction takes are reserved.
pub(crate) fn ask_file<D: Disk>(
    alloc: Global,
    volume: &mut Volume<D>,
    request: &Request,
    now: Moment,
) -> FileOutcome
    requires fits { FitsRequest request.now }
    requires size { length volume.old.map.states ≤ volume.old.blocks }
    // All clauses of a file call, with the first blocks of the volume as its pages, as many as the block map has.
    ensures answers { AnswersOf D.tells request.now now volume.old volume.new result }
    ensures asked { IsAskedOf D.tells D.tells_crashes volume.old volume.new }
    ensures size { length volume.new.map.states ≡ length volume.old.map.states }
{
    let mut asks = FileAsk {
        alloc,
        request,
        now,
        answer: FileOutcome::NeedsLog,
    };
    volume.ask_by(&mut asks);
    let FileAsk { answer, .. } = asks;
    answer
}
