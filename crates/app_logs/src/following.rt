//! Carrying out an order on a log.

ghost use Rattle.std.specs.Prelude.{◌≡◌, ◌≢◌, ℕ, None, Some, Err, IfErr, IfOk, OnOk};
ghost use Rattle.std.specs.Io.KnownBytes.{IsAtEnd};
ghost use Rattle.json_lines.specs.ReadCalls.{IsFurther};
ghost use Rattle.json_lines.specs.WriteCalls.{FailsToTake, IsPassedOn, PassesOn};
ghost use Rattle.app_logs.specs.Endings.{WritesFront};
ghost use Rattle.app_logs.specs.LogAnswers.{FollowsLog, IsLogError, RefusesLate, WritesFirstCuts, every_in, expected_in};
ghost use Rattle.app_logs.specs.ReadCalls.{FollowsLogBy};

use crate::answering::answer_log;
use crate::failure::LogError;
use crate::late_writes::LateWrite;
use crate::watching::{Watch, watch_log};
use app_engine::WorkerThreads;
use app_orders::{LogJudging, LogOrder};
use json_lines::{MAX_WRITE_CALLS, Outcome, Sink, Source};
use std::sync::Wait;
use std::thread::Threads;

/// The outcome for a log.
#[derive(Clone, Copy, Debug, PartialEq, Eq)]
pub struct Followed {
    /// The outcome for the criteria that are expected to be met.
    pub outcome: Outcome,
    /// Whether the log's last line is incomplete, and was skipped.
    pub torn: bool,
    /// With `every` in the order, a write that begins only after a cut at which a read had returned its value, if one was read.
    pub late: Option<LateWrite>,
    /// With `every` in the order, whether the log's first line says that its events stand in the order of time.
    pub says_order: bool,
}

/// What becomes of the rest of a log where the judging ends early.
#[derive(Clone, Copy, Debug, PartialEq, Eq)]
pub enum Rest {
    /// It is not read: to read it might wait for what writes the log.
    Unread,
    /// It is read, so that a late write is found.
    Read,
}

/// Carries out an order on the log that a source has, one event a line, and writes the answer.
///
/// With `every` in the order, it judges the log after each so many events and at its end, and writes each line before it reads more; it
/// ends early at the first cut whose outcome is not the expected one. Then `rest` says whether it reads on to find a late write: it passes
/// over what is refused there. Without `every` it reads the whole log before it makes the answer, and makes the whole answer before it
/// writes it.
///
/// Fails with the first line that is refused, for want of memory, and where the source or the writer fails; also with `Memory` if
/// `every` is 0, which no command line gives. After every error except a write fault it has written nothing, or with `every` the lines
/// on some first cuts, each as expected; after a refusal those on all cuts that come before the line. After a write fault it has written a
/// beginning of the answer, or with `every` the lines on some first cuts and a beginning of that on the next one. A write fault comes only
/// where a write call failed, and a read fault only where a read call did, or a line did not end in as many calls as are made for one. No
/// read call is made after the end or after one that failed. Of a line that is refused it appends to `details` what `error_lines` says of
/// it besides its reason.
///
/// O(n (k + log n)) for a history of n operations in k sessions, for each cut, and the cost of reading. Tests, not proofs, cover which late
/// write it names.
pub fn follow_log<P: Threads + Wait + Sync + AllocGlobal, R: Source, W: Sink>(
    rt: &P,
    source: &mut R,
    writer: &mut W,
    order: &LogOrder,
    rest: Rest,
    details: &mut String,
) -> Result<Followed, LogError>
    ensures followed { IfOk result (FollowsLog order.now (R.remaining source.old) (R.remaining source.new)
        (W.contents writer.old) (W.contents writer.new)) }
    ensures error { IfErr result (IsLogError (R.remaining source.old)) }
    ensures unwritten { every_in order.now ≡ None → IfErr result (λ e. e ≢ LogError.WriteFault → writer.new ≡ writer.old) }
    ensures first_cuts { (every : ℕ) → every_in order.now ≡ Some every → IfErr result (λ e. e ≢ LogError.WriteFault
        → WritesFirstCuts every (expected_in order.now) (R.remaining source.old) (W.contents writer.old) (W.contents writer.new)) }
    ensures refused { (every : ℕ) → every_in order.now ≡ Some every → IfErr result
        (RefusesLate every (expected_in order.now) (R.remaining source.old) (W.contents writer.old) (W.contents writer.new)) }
    ensures begun { result ≡ Err LogError.WriteFault
        → WritesFront order.now (R.remaining source.old) (W.contents writer.old) (W.contents writer.new) }
    ensures read_on { IsFurther (R.remaining source.old) (R.remaining source.new) }
    ensures read_whole { every_in order.now ≡ None → result ≡ Err LogError.WriteFault → IsAtEnd (R.remaining source.new) }

    // Whatever the source and the writer report of their calls.
    ensures calls { FollowsLogBy R.called (every_in order.now) rest result source.old source.new }
    ensures passed_on { OnOk result (PassesOn W.called writer.old writer.new) }
    ensures unfailed { result ≢ Err LogError.WriteFault → IsPassedOn W.called writer.old writer.new }
    ensures write_fault { result ≡ Err LogError.WriteFault → FailsToTake W.called MAX_WRITE_CALLS writer.old writer.new }
{
    match order {
        LogOrder::Judge(
            LogJudging {
                workers,
                expected,
                every: Some(every),
            },
        ) => {
            let work = WorkerThreads::of(rt, *workers);
            let watch = Watch {
                work: &work,
                alloc: rt.alloc(),
                expected: *expected,
                every: *every,
                rest,
            };
            watch_log(&watch, source, writer, details)
        }
        _ => answer_log(rt, source, writer, order, details),
    }
}
