//! Writing what several workers answer, in the order of the lines.
ghost use Rattle.std.specs.Prelude.{◌≡◌, ◌≢◌, ◌<◌, Err, IfErr, IfOk, IfSome, IsErr, OnErr, length};
ghost use Rattle.json_lines.specs.Lines.{AllAreAnswered, FirstAreAnswered, FirstAreBegun};
ghost use Rattle.json_lines.specs.WriteCalls.{FailsToTake, IsPassedOn};
ghost use Rattle.json_line_workers.specs.Places.{IsEnd};

use crate::job::{Job, WrittenTo};
use crate::piece::Done;
use crate::place::Place;
use json_lines::{Fault, MAX_WRITE_CALLS, Outcome, Sink, write_whole};
use std::alloc::Global;
use std::marker::{Model, PhantomData};

/// What is written, under a lock.
#[derive(Drop)]
pub struct Outlet<J: Job + WrittenTo<W>, W: Sink + Drop> {
    writer: W,
    until: Place,
    outcome: Outcome,
    fault: Option<Fault>,
    waiting: Vec<Done<J>>,
    of: PhantomData<J>,
}

impl<J: Job + WrittenTo<W>, W: Sink + Drop> Model for Outlet<J, W> {
    ghost use Rattle.std.specs.Prelude.{IfSome, Option};
    ghost use Rattle.json_lines.specs.declared.fault.Fault.{Fault as AnyFault};
    ghost use Rattle.json_line_workers.specs.Calls.{IsWritten};
    ghost use Rattle.json_line_workers.specs.Places.{IsOutlet};

    ghost Value = { Option AnyFault };

    ghost view = { λ s. s.fault };

    ghost invariant = { λ s. IsOutlet J.says J.input J.before (W.contents s.writer) s.until s.outcome s.fault
        × IfSome J.writer (λ first. IsWritten W.called first s.writer s.fault) };
}

impl<J: Job + WrittenTo<W>, W: Sink + Drop> Outlet<J, W> {
    /// Nothing is written yet.
    pub(crate) fn new(alloc: Global, writer: W) -> Outlet<J, W>
        requires before { W.contents writer ≡ J.before }
        requires first { IfSome J.writer (λ first. first ≡ writer) }
    {
        Outlet {
            writer,
            until: Place::first(),
            outcome: Outcome::Met,
            fault: None,
            waiting: Vec::new(alloc),
            of: PhantomData,
        }
    }

    /// So many answers wait for those before them, and these are not next.
    pub(crate) fn is_full_for(&self, from: Place, most: usize) -> bool {
        self.fault.is_none() && !self.until.is(from) && self.waiting.len() >= most
    }

    /// Whether there was a fault.
    pub(crate) fn is_broken(&self) -> bool {
        self.fault.is_some()
    }

    /// Takes answers over, and writes those that come next.
    pub(crate) fn take_over(&mut self, done: Done<J>) {
        if self.fault.is_some() {
            return;
        }
        if self.waiting.push(done).is_err() {
            self.fault = Some(Fault::Memory);
            return;
        }
        for _ in 0..u64::MAX {
            let Some(place) = place_from(self.waiting.as_slice(), self.until) else {
                return;
            };
            let next = self.waiting.swap_remove(place);
            self.file(&next);
        }
    }

    // Writes the answers to the lines that come next, and no others.
    fn file(&mut self, done: &Done<J>) {
        if self.fault.is_some() {
            return;
        }
        if !self.until.is(done.from) {
            return;
        }
        if write_whole(&mut self.writer, done.part.text.as_slice()).is_err() {
            self.fault = Some(Fault::Write);
            return;
        }
        match done.part.outcome {
            Ok(one) => {
                self.until = done.until;
                self.outcome = self.outcome.worse(one);
            }
            Err(fault) => {
                self.fault = Some(fault);
            }
        }
    }

    /// The writer, and the outcome of all, where the input ends at that place. Where answers are missing without a fault, it says want of
    /// memory.
    pub(crate) fn ended(self, end: Result<Place, Fault>) -> (W, Result<Outcome, Fault>)
        requires end { IfOk end (IsEnd J.input) }
        requires error { IfErr end (λ e. e ≢ Fault.Write) }
        ensures answered { IfOk result.1 (AllAreAnswered J.says J.input J.before (W.contents result.0)) }
        ensures faulted { IfErr result.1 (λ e. e ≢ Fault.Write → FirstAreAnswered J.says J.input J.before (W.contents result.0)) }
        ensures unended { IfErr end (λ e. IsErr result.1) }
        ensures begun { OnErr result.1 (FirstAreBegun J.says J.input J.before (W.contents result.0)) }
        ensures read_fault { result.1 ≡ Err Fault.Read → end ≡ Err Fault.Read }
        ensures passed_on { result.1 ≢ Err Fault.Write → IfSome J.writer (λ first. IsPassedOn W.called first result.0) }
        ensures write_fault { result.1 ≡ Err Fault.Write
            → IfSome J.writer (λ first. FailsToTake W.called MAX_WRITE_CALLS first result.0) }
    {
        let Outlet {
            writer,
            until,
            outcome,
            fault,
            ..
        } = self;
        if let Some(fault) = fault {
            return (writer, Err(fault));
        }
        match end {
            Ok(place) => {
                if until.is(place) {
                    return (writer, Ok(outcome));
                }
                (writer, Err(Fault::Memory))
            }
            Err(fault) => (writer, Err(fault)),
        }
    }
}

// The place in a list of the answers to the lines from there on.
fn place_from<J: Job>(waiting: &[Done<J>], from: Place) -> Option<usize>
    ensures { IfSome result (λ place. place < length waiting.now) }
{
    for place in 0..waiting.len() {
        let done = &waiting[place];
        if from.is(done.from) {
            return Some(place);
        }
    }
    None
}
