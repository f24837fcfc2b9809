//! The world as a whole, a recording and its cases, and its runs from the first step to the last.

ghost use Rattle.std.specs.Prelude.{◌≡◌, ◌≤◌, [], length, IfOk};
ghost use Rattle.std.specs.List.{zip};
ghost use Rattle.live_simulation.specs.Runs.{IsRun};
ghost use Rattle.live_simulation.specs.Steps.Worlds.{ShowsWorld, StepsTo};

use crate::cases::Cases;
use crate::copying::copy_of;
use crate::recording::Recording;
use crate::refusal::Refusal;
use crate::reply::{Reply, ReplyOf};
use crate::step::{Step, StepOf};
use cert_check::{Certificate, Criterion};
use model_history::MAX_SESSIONS;
use pattern_check::Refutable;
use std::alloc::{AllocError, Global};

/// A recorder and a desk without threads: sessions, sealers, cases and verdicts, as they are between two steps.
#[derive(Drop)]
pub struct World<O: Refutable> {
    recording: Recording<O>,
    cases: Cases<O>,
}

impl<O: Refutable> World<O> {
    /// The replies of `k` sessions, and of all that goes with them, to these steps. The steps and replies before each reply
    /// determine it.
    ///
    /// `k` is from 1 to 16. Fails for want of memory alone. Each step costs what its own call does; none walks the steps before
    /// it.
    pub fn run(
        alloc: Global,
        k: u64,
        start: &O::Start,
        steps: &[Step<O>],
    ) -> Result<Vec<Reply<O>>, AllocError>
        requires some { 1 ≤ k }
        requires few { k ≤ MAX_SESSIONS }
        requires start { O.is_start start.now }
        ensures many { IfOk result (λ replies. length replies.items ≡ length steps.now) }
        ensures replies { IfOk result (λ replies. IsRun O.matches O.answer O.passes start.now k (zip steps.now replies.items)) }
    {
        let first = O::copy_start(alloc, start)?;
        let mut world = World::<O>::new(alloc, k as usize, first)?;
        let mut replies = Vec::with_capacity(alloc, steps.len())?;
        for i in 0..steps.len() {
            let reply = world.step(alloc, &steps[i])?;
            replies.push(reply)?;
        }
        Ok(replies)
    }

    /// A world before its first step.
    fn new(alloc: Global, k: usize, start: O::Start) -> Result<World<O>, AllocError>
        requires few { k ≤ MAX_SESSIONS }
        requires start { O.is_start start }
        ensures { IfOk result (λ w. ShowsWorld O.answer start k [] w.recording w.cases) }
    {
        let recording = Recording::new(alloc, k, start)?;
        let cases = Cases::new(alloc)?;
        Ok(World { recording, cases })
    }

    /// Takes one step.
    fn step(&mut self, alloc: Global, step: &Step<O>) -> Result<Reply<O>, AllocError>
        ensures { IfOk result (λ reply. StepsTo O.matches O.answer O.passes step.now self.old.recording self.old.cases
            reply self.new.recording self.new.cases) }
    {
        match step {
            StepOf::Begin(s, call) => self.recording.begin(*s, *call),
            StepOf::End(s, ret) => self.recording.end(*s, *ret),
            StepOf::Start(told) => self.recording.start(alloc, told),
            StepOf::Look(z) => Ok(self.recording.look(*z)),
            StepOf::Show(z) => self.recording.show(alloc, *z),
            StepOf::File(z, criterion, certificate) => {
                self.file(alloc, *z, *criterion, certificate)
            }
            StepOf::Take => Ok(self.cases.take()),
            StepOf::Work(c, op) => self.cases.work(alloc, *c, *op),
            StepOf::Put(c, v) => Ok(self.cases.put(*c, *v)),
            StepOf::Refute(c, pattern) => self.cases.refute(alloc, *c, pattern),
            StepOf::Ask(c) => Ok(self.cases.ask(*c)),
        }
    }

    /// Files the history of a sealer as the next case.
    ///
    /// `NoSuch` where the sealer has no history, else as `Cases::file`.
    fn file(
        &mut self,
        alloc: Global,
        z: usize,
        criterion: Criterion,
        certificate: &Option<Certificate>,
    ) -> Result<Reply<O>, AllocError>
        ensures { IfOk result (λ reply. StepsTo O.matches O.answer O.passes (StepOf.File z criterion certificate.now)
            self.old.recording self.old.cases reply self.new.recording self.new.cases) }
    {
        let sealed = self.recording.history(alloc, z)?;
        match sealed {
            None => Ok(ReplyOf::Refused(Refusal::NoSuch)),
            Some(history) => {
                let copy = copy_of(alloc, certificate)?;
                self.cases.file(alloc, history, criterion, copy)
            }
        }
    }
}
