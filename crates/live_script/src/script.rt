//! Scripts of one object, and their runs in the world.

ghost use Rattle.std.specs.Prelude.{◌≡◌, length, IfOk};
ghost use Rattle.std.specs.List.{zip};
ghost use Rattle.live_simulation.specs.Runs.{IsRun};
ghost use Rattle.live_script.specs.ScriptForm.{IsFew, IsNumberOfSessions};
ghost use Rattle.live_script.specs.StepForm.{written_out as steps_written_out};

use crate::writing_out::written_out;
use crate::written_step::WrittenStep;
use live_simulation::{Reply, World};
use model_object_trait::SeqObject;
use pattern_check::Refutable;
use std::alloc::{AllocError, Global};
use std::marker::Model;

/// A script has at most so many steps. A written step that expands to several counts as several.
pub const MAX_STEPS: usize = 65_536;

/// A script of a run of the world: the number of sessions, from 1 to 16, the start of their object, and the steps as they are
/// written, which are at most [`MAX_STEPS`].
#[derive(Drop)]
pub struct Script<O: SeqObject> {
    sessions: u64,
    start: O::Start,
    steps: Vec<WrittenStep<O::Call, O::Ret>>,
}

impl<O: SeqObject> Model for Script<O> {
    ghost use Rattle.live_script.specs.ScriptForm.{IsFew, IsNumberOfSessions, ScriptValue};

    ghost Value = { ScriptValue O.Start O.Call O.Ret };

    ghost view = { λ script. record { sessions = script.sessions; start = script.start; steps = script.steps.items } };

    ghost invariant = { λ script. IsNumberOfSessions script.sessions × O.is_start script.start × IsFew script.sessions script.steps.items };
}

impl<O: SeqObject> Script<O> {
    /// The script of so many sessions with this start and these steps.
    pub(crate) fn of(
        sessions: u64,
        start: O::Start,
        steps: Vec<WrittenStep<O::Call, O::Ret>>,
    ) -> Script<O>
        requires sessions { IsNumberOfSessions sessions }
        requires start { O.is_start start }
        requires few { IsFew sessions steps.items }
        ensures { result ≡ record { sessions = sessions; start = start; steps = steps.items } }
    {
        Script {
            sessions,
            start,
            steps,
        }
    }
}

impl<O: Refutable> Script<O> {
    /// The replies of the world to the steps of the script, one for each step that a written step expands to. The steps and
    /// replies before each reply determine it.
    ///
    /// Fails for want of memory alone. It costs what [`World::run`] does.
    pub fn run(self, alloc: Global) -> Result<Vec<Reply<O>>, AllocError>
        ensures many { IfOk result (λ replies. length replies.items ≡ length (steps_written_out self.sessions self.steps)) }
        ensures replies { IfOk result (λ replies. IsRun O.matches O.answer O.passes self.start self.sessions
            (zip (steps_written_out self.sessions self.steps) replies.items)) }
    {
        let Script {
            sessions,
            start,
            steps,
        } = self;
        let steps = written_out(alloc, sessions as usize, steps)?;
        let replies = World::<O>::run(alloc, sessions, &start, steps.as_slice());
        drop(steps);
        replies
    }
}
