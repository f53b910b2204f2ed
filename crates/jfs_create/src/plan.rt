//! The plan of a new object, once blocks are reserved for it.

ghost use Rattle.std.specs.Prelude.{◌≡◌, ◌<◌};
ghost use Rattle.jfs_create.specs.Plans.{SuitsRun, IsPlanned, plan_at, first_seat, extent_on};

use crate::extent::NewExtent;
use crate::make::Plan;
use crate::new::NewObject;
use crate::seats::{Founded, Seated, Site, seat_at};
use jfs_bits::{Moment, Pxd};

/// A new object, before blocks are reserved for it: where its inode is to stand, and when it is made.
#[derive(Clone, Copy)]
pub struct Draft<'a> {
    pub object: NewObject<'a>,
    pub site: Site,
    pub now: Moment,
}

/// The plan, with the run of four blocks that was reserved where an extent is to be made: the inode stands on its first page, in a slot that was never used.
pub(crate) fn plan_of(draft: Draft<'_>, run: Option<Pxd>) -> Plan<'_>
    requires { SuitsRun draft.site run }
    ensures { IsPlanned draft.entry run result }
{
    match (draft.site, run) {
        (Site::There(seated), None) => plan_at(draft, seated, None),
        (Site::Founding(founded), Some(run)) => {
            let seated = first_seat(founded, run);
            plan_at(draft, seated, Some(extent_on(founded, run)))
        }
        _ => unreachable!(),
    }
}

fn plan_at(draft: Draft<'_>, seated: Seated, extent: Option<NewExtent>) -> Plan<'_>
    ensures { result ≡ plan_at draft.entry seated extent }
{
    Plan {
        object: draft.object,
        seat: seated.seat,
        page: seated.page,
        extent,
        now: draft.now,
    }
}

/// The first seat of an extent on a run. No slot of it was used before.
fn first_seat(founded: Founded, run: Pxd) -> Seated
    requires { run.addr < 4294967296 }
    ensures { result ≡ first_seat founded run }
{
    seat_at(
        founded.stamp,
        0,
        founded.parent,
        founded.number,
        run.addr as u32,
    )
}

fn extent_on(founded: Founded, run: Pxd) -> NewExtent
    ensures { result ≡ extent_on founded run }
{
    NewExtent {
        run,
        first: founded.number,
        stamp: founded.stamp,
    }
}
