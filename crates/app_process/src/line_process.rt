//! Lines of an input, each of which is to hold a history.

ghost use Rattle.std.specs.Prelude.{◌≡◌, ◌≢◌, ◌⊎◌, IfErr, IfOk, OnOk};
ghost use Rattle.std.specs.Option.{option_copied};
ghost use Rattle.json_lines.specs.Lines.{AllAreAnswered, FirstAreAnswered};
ghost use Rattle.app_engine.specs.LineAnswers.{IsLineAnswer};
ghost use Rattle.app_process.specs.Faults.{Blames, MayFail, ReadingFails, WritingFails};
ghost use Rattle.app_process.specs.Endings.{EndsLines};
ghost use Rattle.app_process.specs.Steps.LineOutcomes.{SaysOutcome};
ghost use Rattle.app_process.specs.Steps.Noticing.{HasNoticed, SaysNoticed};

use crate::noticing::Noticing;
use crate::place::Place;
use crate::reporting::report;
use crate::saying::Say;
use app_engine::{RunError, judge_lines};
use app_orders::LineJudging;
use json_lines::{Outcome, Sink, Source};
use std::sync::Wait;
use std::thread::Threads;

/// Judges the history in each line of an input, and returns the writer and the exit status.
///
/// Standard error gets one remark for the first blank line that is refused, and one for the first line that breaks off inside a JSON text.
pub(crate) fn judge_lines_of_process<
    P: Threads + Wait + Sync + AllocGlobal + Eprint,
    R: Source + Drop + Send,
    W: Sink + Drop + Send,
    E: Say,
>(place: &Place<'_, P>, reader: R, writer: W, errors: &mut E, judging: LineJudging) -> (W, u8)
    ensures { EndsLines (Blames (ReadingFails 0 R.called) (WritingFails W.called))
        (option_copied place.now.label) judging (R.remaining reader) (W.contents writer) (W.contents result.0)
        (E.said errors.old) (E.said errors.new) result.1 }
{
    let reader = Noticing::of(judging.blank, reader);
    let (reader, writer, outcome) = judge_noticed(place.rt, reader, writer, judging);
    let status = say_outcome(place, errors, &reader, &outcome);
    (writer, status)
}

// Judges the lines that a reader notices. Of what `judge_lines` promises, the contract has the answers, the errors, and that all lines were
// noticed.
fn judge_noticed<
    P: Threads + Wait + Sync + AllocGlobal,
    R: Source + Drop + Send,
    W: Sink + Drop + Send,
>(
    rt: &P,
    reader: Noticing<R>,
    writer: W,
    judging: LineJudging,
) -> (Noticing<R>, W, Result<Outcome, RunError>)
    ensures answered { IfOk result.2 (AllAreAnswered (IsLineAnswer judging)
        (R.remaining reader.reader) (W.contents writer) (W.contents result.1)) }
    ensures faulted { IfErr result.2 (λ e. e ≢ RunError.WriteFault → FirstAreAnswered (IsLineAnswer judging)
        (R.remaining reader.reader) (W.contents writer) (W.contents result.1)) }
    ensures error { IfErr result.2 (λ e. (e ≡ RunError.Memory) ⊎ ((e ≡ RunError.ReadFault) ⊎ (e ≡ RunError.WriteFault))) }
    ensures blamed { IfErr result.2 (MayFail (Blames (ReadingFails 0 R.called) (WritingFails W.called))) }
    ensures noticed { OnOk result.2 (HasNoticed reader.noticed (R.remaining reader.reader) result.0.noticed) }
{
    judge_lines(rt, reader, writer, judging)
}

// Says what was noticed of the lines, or why they have no answer, and returns the exit status.
fn say_outcome<P: AllocGlobal + Eprint + Wait, R, E: Say>(
    place: &Place<'_, P>,
    errors: &mut E,
    reader: &Noticing<R>,
    outcome: &Result<Outcome, RunError>,
) -> u8
    ensures { SaysOutcome (option_copied place.now.label) reader.now.noticed outcome.now (E.said errors.old) (E.said errors.new) result }
{
    match outcome {
        Ok(outcome) => {
            say_remarks(place, errors, reader);
            outcome.status()
        }
        Err(error) => report(place, errors, error),
    }
}

// Says what was noticed of the lines, where memory suffices.
fn say_remarks<P: AllocGlobal + Eprint + Wait, R, E: Say>(
    place: &Place<'_, P>,
    errors: &mut E,
    reader: &Noticing<R>,
)
    ensures { SaysNoticed (option_copied place.now.label) reader.now.noticed (E.said errors.old) (E.said errors.new) }
{
    if let Ok(remarks) = reader.remarks(place.rt.alloc()) {
        place.say(errors, remarks.as_str());
    }
}
