//! How much a run asks of its store.

ghost use Rattle.std.specs.Prelude.{◌≡◌};

use app_logs::NullReadCounts;
use judge_memory::{LongEntry, LongHistory};
use judge_reader::read_long;
use log_events::{ClientCall, Ending, EventLog};
use log_reader::EventReader;
use model_objects::{KeyedCall, RegisterCall, RegisterRet};
use std::alloc::{AllocError, Global};

/// How much a run of a memory asks: its clients and calls, and what became of them.
#[derive(Drop)]
pub(crate) struct RunCounts {
    clients: u64,
    calls: u64,
    /// Writes and deletes.
    writes: u64,
    reads: u64,
    lost: u64,
    failed: u64,
    /// Reads that found nothing at keys that some delete names, by how many possible sources they have.
    null_reads: NullReadCounts,
    /// The keys of all calls, and the pairs of key and value that were written.
    keys: Vec<u64>,
    pairs: Vec<(u64, u64)>,
}

impl RunCounts {
    fn nothing(alloc: Global) -> RunCounts {
        RunCounts {
            clients: 0,
            calls: 0,
            writes: 0,
            reads: 0,
            lost: 0,
            failed: 0,
            null_reads: NullReadCounts {
                one: 0,
                several: 0,
                none: 0,
            },
            keys: Vec::new(alloc),
            pairs: Vec::new(alloc),
        }
    }

    /// How many reads were answered.
    pub(crate) fn reads(&self) -> u64
        ensures { result ≡ self.now.reads }
    {
        self.reads
    }

    /// The counts in one line.
    pub(crate) fn line(&mut self, alloc: Global) -> Result<String, AllocError> {
        self.keys.sort()?;
        self.pairs.sort()?;
        let mut line = self.calls_words(alloc)?;
        push_words(&mut line, self.endings_words(alloc)?)?;
        push_words(&mut line, self.keys_words(alloc)?)?;
        push_words(&mut line, sources_words(alloc, self.null_reads)?)?;
        Ok(line)
    }

    // What the line says of calls.
    fn calls_words(&self, alloc: Global) -> Result<String, AllocError> {
        format!(in alloc;
            "clients {}, calls {}, writes {}, reads answered {}",
            self.clients, self.calls, self.writes, self.reads
        )
    }

    // What it says of how calls ended.
    fn endings_words(&self, alloc: Global) -> Result<String, AllocError> {
        format!(in alloc;
            ", lost {}, failed {}, reads that ask nothing {}",
            self.lost, self.failed, self.null_reads.several
        )
    }

    // What it says of keys and values, which are sorted.
    fn keys_words(&self, alloc: Global) -> Result<String, AllocError> {
        let keys = distinct(self.keys.as_slice());
        let repeated = repeated(self.pairs.as_slice());
        format!(in alloc; ", keys {keys}, values that repeat {repeated}")
    }

    // Counts a write of a key, or a delete, which has no value.
    fn add_write(&mut self, key: u64, value: Option<u64>) -> Result<(), AllocError> {
        self.writes = self.writes.saturating_add(1);
        self.add_key(key)?;
        if let Some(value) = value {
            self.pairs.push((key, value))?;
        }
        Ok(())
    }

    // Counts a call of a key.
    fn add_key(&mut self, key: u64) -> Result<(), AllocError> {
        self.calls = self.calls.saturating_add(1);
        self.keys.push(key)?;
        Ok(())
    }

    // Counts how a call ended.
    fn add_ending(&mut self, ending: Option<Ending>) {
        match ending {
            Some(Ending::Got(_) | Ending::GotNothing) => self.reads = self.reads.saturating_add(1),
            Some(Ending::Failed) => self.failed = self.failed.saturating_add(1),
            Some(Ending::Lost) => self.lost = self.lost.saturating_add(1),
            Some(Ending::Answered) | None => {}
        }
    }

    // Counts an operation of a history.
    fn add_entry(&mut self, entry: &LongEntry) -> Result<(), AllocError> {
        let (KeyedCall { key, call }, ret) = entry;
        match call {
            RegisterCall::Write(value) => self.add_write(*key as u64, Some(*value))?,
            RegisterCall::Read => self.add_key(*key as u64)?,
        }
        match ret {
            Some(RegisterRet::Value(_)) => self.reads = self.reads.saturating_add(1),
            Some(_) => {}
            None => self.lost = self.lost.saturating_add(1),
        }
        Ok(())
    }
}

/// The counts of the run that a log records, whose bytes were read before. Its events stand in the order of time where its first line says
/// so, and where it was judged while it was read (`is_watched`).
pub(crate) fn counts_of_log(alloc: Global, bytes: &[u8], is_watched: bool) -> Option<RunCounts> {
    let mut reader = EventReader::new(alloc).ok()?;
    let mut source = bytes;
    let outcome = reader.read(&mut source, u32::MAX);
    if outcome.is_err() {
        return None;
    }
    let in_time = is_watched || reader.is_in_time();
    counted_log(alloc, reader.log(), in_time).ok()
}

fn counted_log(alloc: Global, log: &EventLog, in_time: bool) -> Result<RunCounts, AllocError> {
    let mut counts = RunCounts::nothing(alloc);
    counts.clients = log.clients() as u64;
    for call in log.calls() {
        match call.call() {
            ClientCall::WriteTo(key, value) => counts.add_write(key as u64, Some(value as u64))?,
            ClientCall::DeleteOf(key) => counts.add_write(key as u64, None)?,
            ClientCall::ReadOf(key) => counts.add_key(key as u64)?,
        }
        counts.add_ending(call.ending());
    }
    counts.null_reads = NullReadCounts::of(alloc, log, in_time)?;
    Ok(counts)
}

/// The counts of the run that a memory history records; nothing for another object.
pub(crate) fn counts_of_history(alloc: Global, bytes: &[u8]) -> Option<RunCounts> {
    let history = read_long(alloc, bytes).ok()?;
    let counts = counted_history(alloc, &history);
    counts.ok()
}

fn counted_history(alloc: Global, history: &LongHistory) -> Result<RunCounts, AllocError> {
    let mut counts = RunCounts::nothing(alloc);
    counts.clients = history.sessions() as u64;
    for session in 0..history.sessions() {
        for entry in history.session(session) {
            counts.add_entry(entry)?;
        }
    }
    Ok(counts)
}

// Puts words after others.
fn push_words(line: &mut String, words: String) -> Result<(), AllocError> {
    line.push_str(&words)?;
    Ok(())
}

// What is said of reads that found nothing at keys that some delete names, where there are any.
fn sources_words(alloc: Global, counts: NullReadCounts) -> Result<String, AllocError> {
    let NullReadCounts { one, several, none } = counts;
    if one == 0 && several == 0 && none == 0 {
        return Ok(String::new(alloc));
    }
    format!(in alloc;
        ", reads that found nothing at deleted keys: with one possible source {one}, several {several}, none {none}"
    )
}

// How many different numbers a sorted list has.
fn distinct(sorted: &[u64]) -> u64 {
    let mut count = 0u64;
    let mut last = None;
    for number in sorted {
        if last != Some(*number) {
            count = count.saturating_add(1);
        }
        last = Some(*number);
    }
    count
}

// How many pairs are more than once in a sorted list.
fn repeated(sorted: &[(u64, u64)]) -> u64 {
    let mut count = 0u64;
    let mut last = None;
    let mut is_counted = false;
    for pair in sorted {
        if last == Some(*pair) {
            if !is_counted {
                count = count.saturating_add(1);
            }
            is_counted = true;
        } else {
            is_counted = false;
        }
        last = Some(*pair);
    }
    count
}
