//! The core's state.

ghost use Rattle.std.specs.Prelude.{◌≡◌, ◌<◌, ◌^◌, ◌++◌, ◌∷◌, [], length, OnOk, IfOk};
ghost use Rattle.jfs_core.specs.Core.{fresh_block, fresh_core};
ghost use Rattle.jfs_disk.specs.Pages.{contents};
ghost use Rattle.jfs_core.specs.Sound.{IsSound};

use crate::block::Slot;
use crate::entry::Entry;
use jfs_disk::{Fault, Page, PageList};
use std::alloc::{AllocError, Global};
use std::marker::Model;

/// A mounted volume, as far as crashes matter: its history, its log as counts, and the contents and pending writes of its
/// low part. `specs/Core.antt` names its parts.
#[derive(Drop)]
pub struct CoreState {
    pub(crate) mounted: PageList,
    pub(crate) history: Vec<Entry>,
    pub(crate) taken: u64,
    pub(crate) durable: u64,
    pub(crate) told: u64,
    pub(crate) grouped: bool,
    pub(crate) syncpoints: Vec<u64>,
    pub(crate) points_taken: u64,
    pub(crate) points_stable: u64,
    pub(crate) slots: Vec<Slot>,
    pub(crate) low_halted: Option<Fault>,
    pub(crate) log_halted: Option<Fault>,
}

impl Model for CoreState {
    ghost use Rattle.jfs_core.specs.Core.{Core};

    ghost Value = { Core };

    ghost use Rattle.jfs_core.specs.State.{core_of, StaysInBounds};

    ghost view = { core_of };

    ghost invariant = { StaysInBounds };
}

impl CoreState {
    /// The core of a volume that was just mounted: these pages, stable, and no fault.
    pub fn new(alloc: Global, low: &PageList) -> Result<CoreState, AllocError>
        requires { length low.now < 2 ^ 32 }
        ensures fresh { IfOk result (λ core. core ≡ fresh_core (contents low.now)) }
        ensures sound { IfOk result (λ core. IsSound core) }
    {
        let mut mounted = PageList::new(alloc);
        let mut slots = Vec::new(alloc);
        for page in low.as_slice() {
            mount_page(alloc, page, &mut mounted, &mut slots)?;
        }
        let mut syncpoints = Vec::new(alloc);
        syncpoints.push(0)?;
        Ok(CoreState {
            mounted,
            history: Vec::new(alloc),
            taken: 0,
            durable: 0,
            told: 0,
            grouped: false,
            syncpoints,
            points_taken: 1,
            points_stable: 1,
            slots,
            low_halted: None,
            log_halted: None,
        })
    }
}

fn mount_page(
    alloc: Global,
    page: &Page,
    mounted: &mut PageList,
    slots: &mut Vec<Slot>,
) -> Result<(), AllocError>
    ensures mounted { OnOk result (contents mounted.new ≡ contents mounted.old ++ page.now.0 ∷ []) }
    ensures slots { OnOk result (slots.new.items ≡ slots.old.items ++ fresh_block page.now.0 ∷ []) }
    ensures size { length page.now.0 ≡ 4096 }
{
    let _bytes: &[u8] = &page.0;
    mounted.push(Page(page.0))?;
    slots.push(Slot::new(alloc, page)?)?;
    Ok(())
}
