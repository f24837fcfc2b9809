//! Expanding the steps of a script that mean several steps of the world.

ghost use Rattle.std.specs.Prelude.{◌≡◌, ◌++◌, IfOk, OnOk, replicate};
ghost use Rattle.live_script.specs.StepForm.{steps_of, written_out as steps_written_out};
ghost use Rattle.live_simulation.specs.declared.step.StepOf.{StepOf as AnyStep};
ghost use Rattle.live_simulation.specs.declared.step.StepOf.TheVariants.{Look};

use crate::written_step::WrittenStep;
use live_simulation::{StepOf, Told};
use std::alloc::{AllocError, Global};

/// The steps of a world of `k` sessions that these expand to, in order.
///
/// Fails for want of memory alone. O(n + m) for n steps that expand to m.
pub fn written_out<C: Drop, R: Drop>(
    alloc: Global,
    k: usize,
    written: Vec<WrittenStep<C, R>>,
) -> Result<Vec<StepOf<C, R>>, AllocError>
    ensures { IfOk result (λ steps. steps.items ≡ steps_written_out k written.items) }
{
    let mut steps = Vec::new(alloc);
    for step in written {
        push_steps(alloc, k, step, &mut steps)?;
    }
    Ok(steps)
}

/// Appends the steps that a written step expands to.
fn push_steps<C: Drop, R: Drop>(
    alloc: Global,
    k: usize,
    written: WrittenStep<C, R>,
    steps: &mut Vec<StepOf<C, R>>,
) -> Result<(), AllocError>
    ensures { OnOk result (steps.new.items ≡ steps.old.items ++ steps_of k written) }
{
    match written {
        WrittenStep::Once(step) => Ok(steps.push(step)?),
        WrittenStep::StartUntold => {
            let told = Told::of(vec![in alloc; 0; k]?);
            Ok(steps.push(StepOf::Start(told))?)
        }
        WrittenStep::Looks(sealer, times) => push_looks(sealer, times, steps),
    }
}

/// Appends so many looks of a sealer.
fn push_looks<C: Drop, R: Drop>(
    sealer: usize,
    times: usize,
    steps: &mut Vec<StepOf<C, R>>,
) -> Result<(), AllocError>
    ensures { OnOk result (steps.new.items ≡ steps.old.items ++ replicate times (Look sealer)) }
{
    for _ in 0..times {
        steps.push(StepOf::Look(sealer))?;
    }
    Ok(())
}
