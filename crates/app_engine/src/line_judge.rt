//! Judging many histories, each in a line of its own.
ghost use Rattle.std.specs.Prelude.{◌≡◌, ◌≢◌, ◌⊎◌, Err, IfErr, IfOk, OnErr, OnOk, string_bytes};
ghost use Rattle.std.specs.Io.KnownBytes.{IsAtEnd};
ghost use Rattle.json_lines.specs.Lines.{AllAreAnswered, FirstAreAnswered, FirstAreBegun};
ghost use Rattle.json_lines.specs.ReadCalls.{CallsOnceAtMost, EndsBy, FindsNoEnd, IsEnd, IsFurther, ReadsOn};
ghost use Rattle.json_lines.specs.WriteCalls.{FailsToTake, IsPassedOn};
ghost use Rattle.app_engine.specs.LineAnswers.{IsLineAnswer};
ghost use Rattle.app_engine.specs.Running.{HasOutcome, IsOutput, IsOutputError};

use crate::answered::Answered;
use crate::failure::RunError;
use crate::input::MAX_INPUT_BYTES;
use crate::line_answers::{append_answer, append_refusal};
use app_orders::{LineJudging, Order};
use json::Scratch;
use json_line_workers::answer_lines;
use json_lines::{Fault, LineHandler, MAX_READ_CALLS, MAX_WRITE_CALLS, Outcome, Sink, Source};
use std::alloc::Global;
use std::sync::Wait;
use std::thread::Threads;

/// Judges the history in each line of the input, and writes a line for each, in order: the lines of its report joined by `; `, or
/// the line of its refusal as [`fault_line`](crate::fault_line) has it. A blank line that is skipped is answered by a blank line.
/// Returns the reader, the writer, and the outcome of all.
///
/// Each line has the byte limit of an input. A longer line is refused like an input that is too long, and its rest is passed over. The
/// last line may lack its line feed. Each worker judges lines of its own, one after the other, while the others read and judge on. The
/// answers to whole lines that were read do not wait for further input, as [`answer_lines`] says.
///
/// It fails if the reader or the writer does, or memory runs out for a line. What was answered before stays written then, and after a
/// write fault a beginning of further answers may be. No read call is made after the end or after one that failed. The cost is that of
/// `judge` for each line.
#[tactic(auto, using(crate::proofs::Faults::not_written, crate::proofs::Faults::read_failed, crate::proofs::Faults::write_failed))]
pub fn judge_lines<
    P: Threads + Wait + Sync + AllocGlobal,
    R: Source + Drop + Send,
    W: Sink + Drop + Send,
>(rt: &P, reader: R, writer: W, judging: LineJudging) -> (R, W, Result<Outcome, RunError>)
    ensures answered { IfOk result.2 (AllAreAnswered (IsLineAnswer judging)
        (R.remaining reader) (W.contents writer) (W.contents result.1)) }
    ensures end { OnOk result.2 (IsAtEnd (R.remaining result.0)) }
    ensures faulted { IfErr result.2 (λ e. e ≢ RunError.WriteFault → FirstAreAnswered (IsLineAnswer judging)
        (R.remaining reader) (W.contents writer) (W.contents result.1)) }
    ensures begun { OnErr result.2
        (FirstAreBegun (IsLineAnswer judging) (R.remaining reader) (W.contents writer) (W.contents result.1)) }
    ensures read_on { IsFurther (R.remaining reader) (R.remaining result.0) }

    // Whatever the reader and the writer report of their calls.
    ensures calls { ReadsOn R.called (CallsOnceAtMost R.called) reader result.0 }
    ensures end_found { OnOk result.2 (ReadsOn R.called (EndsBy R.called MAX_READ_CALLS IsEnd) reader result.0) }
    ensures fault { result.2 ≡ Err RunError.ReadFault → ReadsOn R.called (FindsNoEnd R.called MAX_READ_CALLS) reader result.0 }
    ensures passed_on { result.2 ≢ Err RunError.WriteFault → IsPassedOn W.called writer result.1 }
    ensures write_fault { result.2 ≡ Err RunError.WriteFault → FailsToTake W.called MAX_WRITE_CALLS writer result.1 }
    ensures error { IfErr result.2 (λ e. (e ≡ RunError.Memory) ⊎ ((e ≡ RunError.ReadFault) ⊎ (e ≡ RunError.WriteFault))) }
{
    let alloc = rt.alloc();
    let each = judging.judging;
    let judge = LineJudge { alloc, judging };
    let workers = each.workers.count();
    let (reader, writer, outcome) = answer_lines(rt, alloc, reader, writer, &judge, workers);
    match outcome {
        Ok(outcome) => (reader, writer, Ok(outcome)),
        Err(fault) => (reader, writer, Err(RunError::from(fault))),
    }
}

/// The lines that answer those of an input, and what comes of all.
///
/// Fails for want of memory alone. The cost is that of `judge` for each line.
pub(crate) fn judge_each<T: Threads + Wait + Sync>(
    rt: &T,
    alloc: Global,
    input: &[u8],
    judging: LineJudging,
) -> Result<Answered, RunError>
    ensures output { IfOk result (λ answered. IsOutput (Order.JudgeLines judging) input.now (string_bytes answered.text)) }
    ensures outcome { IfOk result (λ answered.
        HasOutcome (Order.JudgeLines judging) input.now (string_bytes answered.text) answered.outcome) }
    ensures error { IfErr result (IsOutputError (Order.JudgeLines judging) input.now) }
{
    let each = judging.judging;
    let judge = LineJudge { alloc, judging };
    let workers = each.workers.count();
    let (_, text, outcome) = answer_lines(rt, alloc, input, Vec::new(alloc), &judge, workers);
    match (outcome, String::from_utf8(text)) {
        (Ok(outcome), Ok(text)) => Ok(Answered { text, outcome }),
        _ => Err(RunError::Memory),
    }
}

// Judges single lines.
#[derive(Drop)]
struct LineJudge {
    alloc: Global,
    judging: LineJudging,
}

impl LineHandler for LineJudge {
    ghost use Rattle.app_engine.specs.LineAnswers.{IsLineAnswer};
    ghost use Rattle.app_engine.specs.declared.input.TheConstants.{MAX_INPUT_BYTES as LIMIT};

    ghost says = { λ judge line text outcome. IsLineAnswer judge.judging line text outcome };

    ghost most = { λ _. LIMIT };

    fn limit(&self) -> usize {
        MAX_INPUT_BYTES
    }

    fn answer(
        &self,
        scratch: &mut Scratch<Global>,
        line: &[u8],
        text: &mut Vec<u8>,
    ) -> Result<Outcome, Fault> {
        append_answer(self.alloc, scratch, line, self.judging, text)
    }

    fn answer_long(&self, text: &mut Vec<u8>) -> Result<Outcome, Fault> {
        append_refusal(self.alloc, &RunError::TooLong, text)
    }
}
