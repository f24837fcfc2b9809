//! Judging a log while it is read.

ghost use Rattle.std.specs.Prelude.{◌≡◌, ◌≢◌, ◌⊎◌, ◌+◌, ℕ, List, [], Option, Err, IfErr, IfOk, OnOk, length};
ghost use Rattle.json_lines.specs.ReadCalls.{IsFurther};
ghost use Rattle.json_lines.specs.WriteCalls.{FailsToTake, IsPassedOn, PassesOn};
ghost use Rattle.log_reader.specs.Readings.{HasRead};
ghost use Rattle.app_logs.specs.Endings.{WritesCutsFront};
ghost use Rattle.app_logs.specs.LogAnswers.{IsLogError, RefusesLate, WatchesLog, WritesFirstCuts};
ghost use Rattle.app_logs.specs.ReadCalls.{WatchesBy};
ghost use Rattle.app_logs.specs.Steps.TurnCalls.{PassesLast, ReadsRestBy, TurnsBy};
ghost use Rattle.app_logs.specs.Steps.Watching.{BeginsLast, HasWatched, IsTurn, WritesLast};

use crate::failure::LogError;
use crate::following::{Followed, Rest};
use crate::late_writes::CutEnds;
use crate::telling::tell;
use crate::turn::{Turn, turn_of, write_cut};
use app_engine::SessionWork;
use app_orders::Expected;
use json_lines::{MAX_WRITE_CALLS, Outcome, Sink, Source};
use log_events::{EventLog, MAX_EVENTS};
use log_reader::{EventReader, Progress};
use std::alloc::Global;

/// How a log is judged while it is read, and by whom.
#[derive(Drop)]
pub(crate) struct Watch<'a, K> {
    pub work: &'a K,
    pub alloc: Global,
    pub expected: Expected,
    pub every: u32,
    pub rest: Rest,
}

/// Judges a log after each so many events and at its end, and writes a line on each of these cuts before it reads on. It ends early at
/// the first cut whose outcome is not the expected one.
///
/// Each cut is judged whole. Lines that were written before an error stay written, and after a write fault a beginning of the line on the
/// next cut may follow them. The details of a line that is refused are appended.
pub(crate) fn watch_log<K: SessionWork, R: Source, W: Sink>(
    watch: &Watch<'_, K>,
    source: &mut R,
    writer: &mut W,
    details: &mut String,
) -> Result<Followed, LogError>
    requires { K.can_work watch.now.work.now }
    ensures watched { IfOk result (WatchesLog watch.now.every watch.now.expected (R.remaining source.old) (R.remaining source.new)
        (W.contents writer.old) (W.contents writer.new)) }
    ensures error { IfErr result (IsLogError (R.remaining source.old)) }
    ensures refused { IfErr result (RefusesLate watch.now.every watch.now.expected (R.remaining source.old)
        (W.contents writer.old) (W.contents writer.new)) }
    ensures first_cuts { IfErr result (λ e. e ≢ LogError.WriteFault → WritesFirstCuts watch.now.every watch.now.expected
        (R.remaining source.old) (W.contents writer.old) (W.contents writer.new)) }
    ensures begun { result ≡ Err LogError.WriteFault → WritesCutsFront watch.now.every watch.now.expected (R.remaining source.old)
        (W.contents writer.old) (W.contents writer.new) }
    ensures read_on { IsFurther (R.remaining source.old) (R.remaining source.new) }
    ensures calls { WatchesBy R.called watch.now.rest result source.old source.new }
    ensures passed_on { OnOk result (PassesOn W.called writer.old writer.new) }
    ensures unfailed { result ≢ Err LogError.WriteFault → IsPassedOn W.called writer.old writer.new }
    ensures write_fault { result ≡ Err LogError.WriteFault → FailsToTake W.called MAX_WRITE_CALLS writer.old writer.new }
{
    let mut reader = EventReader::new(watch.alloc)?;
    let mut ends = CutEnds::new(watch.alloc);
    let watched = watch_from(watch, &mut reader, &mut ends, source, writer);
    tell(watch.alloc, &reader, &watched, details);
    let late = ends.late_write(watch.alloc, &reader);
    let says_order = reader.is_in_time();
    drop(ends);
    drop(reader);
    match watched {
        Ok(followed) => Ok(Followed {
            late,
            says_order,
            ..followed
        }),
        Err(error) => Err(error),
    }
}

// The same with a reader of logs that has read nothing.
fn watch_from<K: SessionWork, R: Source, W: Sink>(
    watch: &Watch<'_, K>,
    reader: &mut EventReader,
    ends: &mut CutEnds,
    source: &mut R,
    writer: &mut W,
) -> Result<Followed, LogError>
    requires can_work { K.can_work watch.now.work.now }
    requires unread { HasRead [] reader.old }
    ensures watched { IfOk result (WatchesLog watch.now.every watch.now.expected (R.remaining source.old) (R.remaining source.new)
        (W.contents writer.old) (W.contents writer.new)) }
    ensures error { IfErr result (IsLogError (R.remaining source.old)) }
    ensures refused { IfErr result (RefusesLate watch.now.every watch.now.expected (R.remaining source.old)
        (W.contents writer.old) (W.contents writer.new)) }
    ensures first_cuts { IfErr result (λ e. e ≢ LogError.WriteFault → WritesFirstCuts watch.now.every watch.now.expected
        (R.remaining source.old) (W.contents writer.old) (W.contents writer.new)) }
    ensures begun { result ≡ Err LogError.WriteFault → WritesCutsFront watch.now.every watch.now.expected (R.remaining source.old)
        (W.contents writer.old) (W.contents writer.new) }
    ensures read_on { IsFurther (R.remaining source.old) (R.remaining source.new) }
    ensures calls { WatchesBy R.called watch.now.rest result source.old source.new }
    ensures passed_on { OnOk result (PassesOn W.called writer.old writer.new) }
    ensures unfailed { result ≢ Err LogError.WriteFault → IsPassedOn W.called writer.old writer.new }
    ensures write_fault { result ≡ Err LogError.WriteFault → FailsToTake W.called MAX_WRITE_CALLS writer.old writer.new }
{
    'cuts: for _ in 0..=MAX_EVENTS {
        let turn = watch.turn(reader, source, writer)?;
        match turn {
            Turn::On => ends.note(reader.log()),
            Turn::Stopped(followed) => {
                ends.note(reader.log());
                watch.read_on(reader, source);
                return Ok(followed);
            }
            Turn::Ended(followed) => return Ok(followed),
        }
    }
    Err(LogError::Memory)
}

// How many events come before the next cut. There is no next cut if no event comes between two cuts.
fn next_cut(judged: u32, every: u32) -> Result<u32, LogError>
    ensures next { IfOk result (λ events. events ≡ judged + every) }
    ensures error { IfErr result (λ e. e ≡ LogError.Memory) }
{
    if every == 0 {
        return Err(LogError::Memory);
    }
    judged.checked_add(every).ok_or(LogError::Memory)
}

impl<K: SessionWork> Watch<'_, K> {
    // Reads the rest of a log whose judging ended early, where that is wanted. What is refused there is passed over.
    fn read_on<R: Source>(&self, reader: &mut EventReader, source: &mut R)
        ensures read_on { IsFurther (R.remaining source.old) (R.remaining source.new) }
        ensures calls { ReadsRestBy R.called self.now.rest source.old source.new }
    {
        match self.rest {
            Rest::Read => {
                let _ = reader.read(source, u32::MAX);
            }
            Rest::Unread => {}
        }
    }

    // Reads on to the next cut, and writes the line on it. Returns the outcome for the log if that cut is the last one.
    fn turn<R: Source, W: Sink>(
        &self,
        reader: &mut EventReader,
        source: &mut R,
        writer: &mut W,
    ) -> Result<Turn, LogError>
        requires { K.can_work self.now.work.now }
        ensures turn { (first written : Option (List ℕ)) (count : ℕ)
            → HasWatched self.now.every self.now.expected first (R.remaining source.old) written (W.contents writer.old) reader.old count
            → IfOk result (IsTurn self.now.every self.now.expected first (R.remaining source.new) written (W.contents writer.new)
            reader.new count) }
        ensures error { (first written : Option (List ℕ)) (count : ℕ)
            → HasWatched self.now.every self.now.expected first (R.remaining source.old) written (W.contents writer.old) reader.old count
            → IfErr result (IsLogError first) }
        ensures refused { (first written : Option (List ℕ)) (count : ℕ)
            → HasWatched self.now.every self.now.expected first (R.remaining source.old) written (W.contents writer.old) reader.old count
            → IfErr result (RefusesLate self.now.every self.now.expected first written (W.contents writer.new)) }
        ensures first_cuts { (first written : Option (List ℕ)) (count : ℕ)
            → HasWatched self.now.every self.now.expected first (R.remaining source.old) written (W.contents writer.old) reader.old count
            → IfErr result (λ e. e ≢ LogError.WriteFault
            → WritesFirstCuts self.now.every self.now.expected first written (W.contents writer.new)) }
        ensures begun { (first written : Option (List ℕ)) (count : ℕ)
            → HasWatched self.now.every self.now.expected first (R.remaining source.old) written (W.contents writer.old) reader.old count
            → result ≡ Err LogError.WriteFault
            → WritesCutsFront self.now.every self.now.expected first written (W.contents writer.new) }
        ensures unwritten { IfErr result (λ e. e ≢ LogError.WriteFault → writer.new ≡ writer.old) }
        ensures read_on { IsFurther (R.remaining source.old) (R.remaining source.new) }
        ensures calls { TurnsBy R.called result source.old source.new }
        ensures passed_on { OnOk result (PassesLast W.called (length reader.old.log.events) writer.old writer.new) }
        ensures write_fault { result ≡ Err LogError.WriteFault → FailsToTake W.called MAX_WRITE_CALLS writer.old writer.new }
    {
        let judged = reader.log().events();
        let wanted = next_cut(judged, self.every)?;
        match reader.read(source, wanted)? {
            Progress::More => {
                let outcome = write_cut(
                    self.work,
                    self.alloc,
                    writer,
                    reader.log(),
                    self.expected,
                )?;
                Ok(turn_of(outcome))
            }
            Progress::End { torn } => {
                let outcome = self.write_last(writer, reader.log(), judged)?;
                Ok(Turn::Ended(Followed {
                    outcome,
                    torn,
                    late: None,
                    says_order: false,
                }))
            }
        }
    }

    // Writes the line on a whole log, unless `judged` is not 0 and all its events were judged before.
    fn write_last<W: Sink>(
        &self,
        writer: &mut W,
        log: &EventLog,
        judged: u32,
    ) -> Result<Outcome, LogError>
        requires { K.can_work self.now.work.now }
        ensures written { IfOk result (WritesLast self.now.expected log.now judged (W.contents writer.old) (W.contents writer.new)) }
        ensures error { IfErr result (λ e. (e ≡ LogError.Memory) ⊎ (e ≡ LogError.WriteFault)) }
        ensures unwritten { IfErr result (λ e. e ≢ LogError.WriteFault → writer.new ≡ writer.old) }
        ensures begun { result ≡ Err LogError.WriteFault → BeginsLast log.now judged (W.contents writer.old) (W.contents writer.new) }
        ensures passed_on { OnOk result (PassesLast W.called judged writer.old writer.new) }
        ensures write_fault { result ≡ Err LogError.WriteFault → FailsToTake W.called MAX_WRITE_CALLS writer.old writer.new }
    {
        if judged > 0 && log.events() == judged {
            return Ok(Outcome::Met);
        }
        write_cut(self.work, self.alloc, writer, log, self.expected)
    }
}
