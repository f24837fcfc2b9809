//! Reading a log of events from a source.

ghost use Rattle.std.specs.Prelude.{◌≡◌, ◌+◌, ◌<◌, ◌≤◌, ℕ, max, [], IfErr, IfNone, IfOk, IfSome, OnErr, OnOk, OnSome, length};
ghost use Rattle.std.specs.Prelude.{slice_get, string_bytes, Ok, Some};
ghost use Rattle.json_lines.specs.ReadCalls.{IsFurther};
ghost use Rattle.log_reader.specs.LogCalls.{ReadsLineBy, ReadsLogBy};
ghost use Rattle.log_reader.specs.ReadSteps.{Reads, ReadsLine};
ghost use Rattle.log_reader.specs.Readings.{AreNamed, Extends, FaultsAt, HasRead};
ghost use Rattle.log_reader.specs.Shown.{IsShown};

use crate::book::Book;
use crate::limits::MAX_LINE_BYTES;
use crate::log_fault::{LogFault, refused};
use crate::names::Names;
use crate::notes::Note;
use crate::progress::Progress;
use crate::refusal::Reason;
use crate::taking::{take_line, take_rest};
use json::Scratch;
use json_lines::{Found, LineReader, Source};
use log_events::EventLog;
use std::alloc::{AllocError, Global};
use std::marker::Model;

/// Reads a log of events, line by line: each line is read, its event kept, and the line let go.
#[derive(Drop)]
pub struct EventReader {
    alloc: Global,
    lines: LineReader,
    /// Holds texts after their escapes are read.
    scratch: Scratch<Global>,
    book: Book,
    /// How many lines were read.
    count: u64,
}

impl Model for EventReader {
    ghost use Rattle.std.specs.Prelude.{◌≡◌};
    ghost use Rattle.log_reader.specs.Readings.{Reading};
    ghost use Rattle.log_reader.specs.declared.limits.TheConstants.{MAX_LINE_BYTES};

    ghost Value = { Reading };

    ghost view = { λ r. record { log = r.book; held = r.lines.held; count = r.count } };

    ghost invariant = { λ r. r.lines.most ≡ MAX_LINE_BYTES };
}

impl EventReader {
    /// A reader that has read nothing, and keeps no notes.
    pub fn new(alloc: Global) -> Result<EventReader, AllocError>
        ensures { IfOk result (HasRead []) }
    {
        EventReader::keeping(alloc, false)
    }

    /// A reader that has read nothing, and keeps the notes of calls or none.
    pub fn keeping(alloc: Global, notes: bool) -> Result<EventReader, AllocError>
        ensures { IfOk result (HasRead []) }
    {
        Ok(EventReader {
            alloc,
            lines: LineReader::new(alloc, MAX_LINE_BYTES)?,
            scratch: Scratch::new(alloc),
            book: Book::new(alloc, notes),
            count: 0,
        })
    }

    // Reads the next line, or finds the end.
    fn read_line<R: Source>(&mut self, source: &mut R) -> Result<Option<Progress>, LogFault>
        ensures read { IfOk result (ReadsLine (R.remaining source.old) (R.remaining source.new) self.old self.new) }
        ensures fault { IfErr result (FaultsAt (length self.old.log.events + 1) (R.remaining source.old) self.old) }
        ensures extends { Extends self.old.log self.new.log }
        ensures few { OnOk result (length self.new.log.events ≤ length self.old.log.events + 1) }
        ensures further { IsFurther (R.remaining source.old) (R.remaining source.new) }
        ensures calls { ReadsLineBy R.called result source.old source.new }
        ensures counted { IfOk result (λ end. IfNone end (self.new.count ≡ self.old.count + 1)) }
        ensures uncounted { IfOk result (λ end. OnSome end (self.new.count ≡ self.old.count)) }
        ensures faulted { OnErr result (self.new.count ≡ self.old.count) }
    {
        let found = self.lines.next(source)?;
        if self.count == u64::MAX {
            return Err(LogFault::Memory);
        }
        let line = self.count + 1;
        match found {
            Found::Line => {
                take_line(
                    self.alloc,
                    &mut self.scratch,
                    &mut self.book,
                    self.lines.line(),
                    line,
                )?;
                self.count = line;
                Ok(None)
            }
            Found::Rest => {
                let torn = take_rest(self.alloc, &mut self.book, self.lines.line(), line)?;
                Ok(Some(Progress::End { torn }))
            }
            Found::TooLong => Err(refused(Reason::TooLong, line)),
            Found::End => Ok(Some(Progress::End { torn: false })),
        }
    }
    /// Reads lines until the log has so many events, or to the end.
    ///
    /// After [`Progress::More`] call it again with a greater number. Do not call it again after an end or a fault. It makes read calls only
    /// where it holds no whole line, and returns as soon as it has the events.
    ///
    /// Refuses the first line that does not follow those before it; these have fewer events than were wanted. `Memory` where an
    /// allocation was refused, or where there are more events, names or lines than have numbers; `Read` where the source fails,
    /// or a line did not end within the read calls that are allowed for one line, and nowhere else. No read call is made after
    /// the end or after one that failed. O(n) for n bytes, on average.
    pub fn read<R: Source>(&mut self, source: &mut R, most: u32) -> Result<Progress, LogFault>
        ensures read { IfOk result (Reads (R.remaining source.old) (R.remaining source.new) self.old self.new) }
        ensures fault { IfErr result (FaultsAt most (R.remaining source.old) self.old) }
        ensures extends { Extends self.old.log self.new.log }
        ensures enough { result ≡ Ok Progress.More → most ≤ length self.new.log.events }
        ensures few { OnOk result (length self.new.log.events ≤ max most (length self.old.log.events)) }
        ensures further { IsFurther (R.remaining source.old) (R.remaining source.new) }
        ensures calls { (lines : ℕ) × (self.new.count ≡ self.old.count + lines) × ReadsLogBy R.called lines result source.old source.new }
    {
        for _ in 0..u64::MAX {
            if self.book.events() >= most {
                return Ok(Progress::More);
            }
            if let Some(progress) = self.read_line(source)? {
                return Ok(progress);
            }
        }
        Err(LogFault::Memory)
    }

    /// The line that was read last, without its line feed: after a refusal the line that was refused, unless it is too long.
    pub fn line(&self) -> &[u8] {
        self.lines.line()
    }

    /// The events so far.
    pub fn log(&self) -> &EventLog
        ensures { result.now ≡ self.now.log.events }
    {
        self.book.log()
    }

    /// Whether the log says that its lines stand in the order of time. Once it has an event this does not change.
    pub fn is_in_time(&self) -> bool
        ensures { result ≡ self.now.log.in_time }
    {
        self.book.is_in_time()
    }

    /// The names of the clients.
    pub fn clients(&self) -> &Names
        ensures { result.now ≡ self.now.log.clients }
    {
        self.book.clients()
    }

    /// The names of the keys.
    pub fn keys(&self) -> &Names
        ensures { result.now ≡ self.now.log.keys }
    {
        self.book.keys()
    }

    /// The names of the values.
    pub fn values(&self) -> &Names
        ensures { result.now ≡ self.now.log.values }
    {
        self.book.values()
    }

    /// The number of the line of the event at a place, from 1.
    pub fn line_of(&self, place: usize) -> u32
        requires { place < length self.now.log.events }
        ensures { slice_get self.now.log.lines place ≡ Some result }
    {
        self.book.line_of(place)
    }

    /// The note on the line of the begin of a call, or on that of its end, where there is one and notes are kept. The place is that of the
    /// begin. No contract says which note it is.
    ///
    /// Fails for want of memory alone. O(n) for a note of n bytes.
    pub fn note(&self, alloc: Global, call: u32, is_end: bool) -> Result<Option<Note>, AllocError>
        ensures { IfOk result (λ o. IfSome o (λ note. IsShown (string_bytes note.text))) }
    {
        self.book.note(alloc, call, is_end)
    }

    /// Each event has a line. The method does nothing: what it ensures is the law.
    pub fn events_have_lines(&self)
        ensures { length self.now.log.lines ≡ length self.now.log.events }
    {
        self.book.events_have_lines();
    }

    /// Each number of an event has a name. The method does nothing: what it ensures is the law.
    pub fn numbers_have_names(&self)
        ensures { AreNamed self.now.log }
    {
        self.book.numbers_have_names();
    }

    /// The events so far: the names and the lines are let go.
    pub fn into_log(self) -> EventLog
        ensures { result ≡ self.log.events }
    {
        self.book.into_log()
    }
}
