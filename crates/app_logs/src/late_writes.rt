//! Writes that begin only after a cut at which a read had returned their value.

use crate::tables::line_at;
use log_events::{ClientCall, Ending, EventLog, LoggedCall};
use log_reader::EventReader;
use std::alloc::{AllocError, Global};
use std::collections::HashMap;

/// A read that had returned a value at a cut, and the write of that value, which begins only after the cut: such a log is not in the
/// order of time.
#[derive(Clone, Copy, Debug, PartialEq, Eq)]
pub struct LateWrite {
    /// The line on which the read begins, from 1.
    pub read: u32,
    /// The line on which the first write of the value to the key begins, from 1.
    pub write: u32,
}

/// The cuts at which calls had ended.
#[derive(Drop)]
pub(crate) struct CutEnds {
    /// For each call how many events the first cut has at which it had ended, or 0.
    cuts: Vec<u32>,
}

/// For each key and value that are written, or that the key has at the start, the place of the first begin of such a write, or 0.
type FirstPlaces = HashMap<(u64, u64), u32>;

impl CutEnds {
    /// Those of no cut.
    pub(crate) fn new(alloc: Global) -> CutEnds {
        CutEnds {
            cuts: Vec::new(alloc),
        }
    }

    /// Notes which calls had ended at a cut, whose events these are. What memory does not suffice for is not noted. O(n) for n calls.
    pub(crate) fn note(&mut self, log: &EventLog) {
        let calls = log.calls();
        if self.cuts.resize(calls.len(), 0).is_err() {
            return;
        }
        let events = log.events();
        for (cut, call) in self.cuts.iter_mut().zip(calls) {
            if *cut == 0 && call.ending().is_some() {
                *cut = events;
            }
        }
    }

    /// The late write of a log, with that of its reads that comes first by line: at one of the cuts the read had returned its value, no
    /// write of the value to the key had begun, nor had the key the value at the start, and such a write begins later.
    ///
    /// Nothing where there is none, or where memory does not suffice. O(n) for n calls and starts on average.
    pub(crate) fn late_write(&self, alloc: Global, reader: &EventReader) -> Option<LateWrite> {
        match self.late_places(alloc, reader.log()) {
            Ok(Some((read, write))) => Some(LateWrite {
                read: line_at(reader, read),
                write: line_at(reader, write),
            }),
            _ => None,
        }
    }

    // The places of the begins of that read and of that write.
    fn late_places(&self, alloc: Global, log: &EventLog) -> Result<Option<(u32, u32)>, AllocError> {
        let firsts = first_places(alloc, log)?;
        for (cut, call) in self.cuts.iter().zip(log.calls()) {
            if *cut > 0
                && let Some(pair) = returned_pair(call)
                && let Some(place) = firsts.get(&pair)
                && *cut <= *place
            {
                return Ok(Some((call.place(), *place)));
            }
        }
        Ok(None)
    }
}

// Where the values of a log are written first.
fn first_places(alloc: Global, log: &EventLog) -> Result<FirstPlaces, AllocError> {
    let mut firsts = HashMap::new(alloc);
    add_starts(log, &mut firsts)?;
    for call in log.calls() {
        if let ClientCall::WriteTo(key, value) = call.call() {
            let pair = (u64::from(key), u64::from(value));
            firsts.entry(pair)?.or_insert(call.place());
        }
    }
    Ok(firsts)
}

// Adds the values that keys have at the start.
fn add_starts(log: &EventLog, firsts: &mut FirstPlaces) -> Result<(), AllocError> {
    for (variable, value) in log.starts().entries() {
        let pair = (u64::from(*variable) / 2, *value / 2);
        firsts.entry(pair)?.or_insert(0);
    }
    Ok(())
}

// The key and the value of a read that returned one.
fn returned_pair(call: &LoggedCall) -> Option<(u64, u64)> {
    match (call.call(), call.ending()) {
        (ClientCall::ReadOf(key), Some(Ending::Got(value))) => {
            Some((u64::from(key), u64::from(value)))
        }
        _ => None,
    }
}
