//! Runs of steps.

ghost use Rattle.std.specs.Prelude.{◌≤◌, ◌^◌, length, take};
ghost use Rattle.jfs_core.specs.Run.{IsRun};
ghost use Rattle.jfs_core.specs.Sound.{IsSound, AlwaysRecovers};

use crate::state::CoreState;
use crate::step::{RunError, Step, StepRefused};
use std::alloc::Global;

/// Takes the steps one after another, up to the first that isn't allowed in the state reached. The state is then the one
/// before that step; so it is where memory runs out. This holds of every core, sound or not.
pub fn run_steps(alloc: Global, core: &mut CoreState, steps: &[Step]) -> Result<(), RunError>
    requires { length steps.now ≤ 2 ^ 32 }
    ensures run { IsRun core.old steps.now result core.new }
    ensures sound { IsSound core.old → IsSound core.new }

    // Whatever a crash leaves of the new state, redo gives the image after some of its entries, all acknowledged ones among them.
    ensures recovers { IsSound core.old → AlwaysRecovers core.new }
{
    for i in 0..steps.len() {
        let step = &steps[i];
        if let Some(why) = core.refuses(step) {
            return Err(RunError::Refused(StepRefused { at: i as u32, why }));
        }
        if let Err(_) = core.take_step(alloc, step) {
            return Err(RunError::Memory);
        }
    }
    Ok(())
}
