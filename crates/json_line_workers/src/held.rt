//! What was read of a stream and is not yet handed out.
ghost use Rattle.std.specs.Prelude.{◌≡◌, ◌++◌, ◌+◌, ◌≤◌, ℕ, List, [], Option, IfErr, IfNone, IfSome, OnOk, length};
ghost use Rattle.json_line_workers.specs.Calls.{IsBefore};
ghost use Rattle.json_line_workers.specs.Pieces.{IsCut};
ghost use Rattle.json_line_workers.specs.Places.{start};
ghost use Rattle.json_line_workers.specs.Pieces.{Stops};

use crate::place::Place;
use json_lines::Fault;
use memchr::memrchr;
use std::alloc::Global;

/// Where reading stopped.
#[derive(Clone, Copy)]
pub enum Stop {
    /// Whole lines are at hand.
    Lines,
    /// In a line that is too long.
    TooLong,
    /// At the end of the stream.
    End,
}

/// Bytes that were read and are not yet handed out: whole lines, and the beginning of a further one.
#[derive(Drop)]
pub struct Held {
    /// Where they are.
    pub at: Place,
    /// The bytes.
    pub bytes: Vec<u8>,
    /// How many of them are whole lines.
    pub whole: usize,
}

impl Held {
    /// Nothing, at the start.
    pub(crate) fn new(alloc: Global) -> Held
        ensures bytes { result.bytes.items ≡ [] }
        ensures cut { IsCut result.whole result.bytes.items }
        ensures at { result.at ≡ start }
    {
        Held {
            at: Place::first(),
            bytes: Vec::new(alloc),
            whole: 0,
        }
    }

    /// Takes further bytes in.
    pub(crate) fn take_in(&mut self, bytes: &[u8]) -> Result<(), Fault>
        requires { IsCut self.old.whole self.old.bytes.items }
        ensures bytes { OnOk result (self.new.bytes.items ≡ self.old.bytes.items ++ bytes.now) }
        ensures cut { OnOk result (IsCut self.new.whole self.new.bytes.items) }
        ensures at { self.new.at ≡ self.old.at }
        ensures error { IfErr result (λ e. e ≡ Fault.Memory) }
        ensures few { length self.new.bytes.items ≤ length self.old.bytes.items + length bytes.now }
    {
        let before = self.bytes.len();
        self.bytes.extend_from_slice(bytes)?;
        if let Some(at) = memrchr(b'\n', bytes) {
            self.whole = before + at + 1;
        }
        Ok(())
    }

    /// Why reading stops here, if it does: whole lines are at hand, or the line that is read has more bytes than are read of a line.
    pub(crate) fn stop(&self, most: usize) -> Option<Stop>
        ensures stop { IfSome result (λ stop. (reader : Option (List ℕ)) → Stops most stop reader self.now) }
        ensures before { IfSome result IsBefore }
        ensures short { IfNone result (length self.now.bytes.items ≤ most) }
    {
        if self.whole > 0 {
            return Some(Stop::Lines);
        }
        if self.bytes.len() > most {
            return Some(Stop::TooLong);
        }
        None
    }
}
