//! One crash of the core, and redo.

ghost use Rattle.std.specs.Prelude.{◌≡◌, ◌<◌, ◌≤◌, ◌^◌, ◌++◌, ◌∷◌, [], length, map, IfOk, OnOk, IfSome, is_some};
ghost use Rattle.jfs_disk.specs.Image.{page_of};
ghost use Rattle.jfs_disk.specs.Choice.{choice_of, left_by};
ghost use Rattle.jfs_core.specs.Image.{page_after};
ghost use Rattle.jfs_core.specs.Core.{core_image};
ghost use Rattle.jfs_disk.specs.Pages.{contents};
ghost use Rattle.jfs_core.specs.Left.{IsCrash, may_hold, stable_count, redone_from};
ghost use Rattle.jfs_core.specs.Sound.{IsSound};

use crate::block::Slot;
use crate::entry::Entry;
use crate::replay::replay;
use crate::state::CoreState;
use jfs_disk::{Choice, PageList, find_choice};
use std::alloc::{AllocError, Global};

impl CoreState {
    /// What a crash by these choices leaves of the low part, redone by a log that holds the entries up to `n`; `None` exactly
    /// where `n` isn't one of the durable to the taken entries. A page without a choice, or whose first one names contents
    /// that aren't there, keeps what a read gives.
    pub fn crash(
        &self,
        alloc: Global,
        choices: &[Choice],
        n: u64,
    ) -> Result<Option<PageList>, AllocError>
        ensures some { IfOk result (λ image. is_some image ≡ may_hold self.now n) }
        ensures crash { IfOk result (λ left. IfSome left (λ image. IsSound self.now → IsCrash self.now choices.now n (contents image))) }

        // It is the image after the first `n` entries.
        ensures image { IfOk result (λ left. IfSome left (λ image. IsSound self.now → contents image ≡ core_image self.now n)) }
    {
        if n < self.durable || self.taken < n {
            return Ok(None);
        }
        let from = self.stable_count();
        let log = &self.history[from as usize..n as usize];
        let image = redo(alloc, &self.slots, choices, log)?;
        Ok(Some(image))
    }

    fn stable_count(&self) -> u64
        ensures count { result ≡ stable_count self.now }
        ensures acknowledged { result ≤ self.now.told }
    {
        self.syncpoints[(self.points_stable - 1) as usize]
    }
}

/// Each block as a crash leaves it by the choices, after the entries.
fn redo(
    alloc: Global,
    slots: &[Slot],
    choices: &[Choice],
    log: &[Entry],
) -> Result<PageList, AllocError>
    requires { length slots.now < 2 ^ 32 }
    ensures { IfOk result (λ image. contents image ≡ redone_from choices.now log.now 0 slots.now) }
{
    let mut image = PageList::new(alloc);
    for p in 0..slots.len() {
        let mut page = slots[p].left(find_choice(choices, p as u32));
        replay(log, p as u32, &mut page);
        image.push(page)?;
    }
    Ok(image)
}
