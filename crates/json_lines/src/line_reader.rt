//! Reading a stream line by line.
ghost use Rattle.std.specs.Prelude.{◌≡◌, ◌+◌, ◌≤◌, ◌⊎◌, ℕ, List, Option, [], IfErr, IfOk, OnErr, length};
ghost use Rattle.json_lines.specs.LineReaders.{FindsNext, IsFirst, IsOver};
ghost use Rattle.json_lines.specs.ReadCalls.{FindsBy};
ghost use Rattle.json_lines.specs.Steps.{EndsIn, IsFoundFor, IsStreamOver, TakesSome};

use crate::dropping::drop_front;
use crate::fault::Fault;
use crate::feeding::{LineEnd, first_end, read_to_end};
use crate::found::Found;
use crate::read_call::{CHUNK_BYTES, MAX_READ_CALLS};
use crate::source::Source;
use std::alloc::{AllocError, Global};
use std::marker::Model;

/// Reads a stream line by line, and never waits for more of it than the line that the caller asks for.
///
/// It holds one line, and what was read with its end: at most a chunk of 65,536 bytes more than a line may have.
#[derive(Drop)]
pub struct LineReader {
    /// What read calls write to.
    chunk: Vec<u8>,
    /// What was read.
    bytes: Vec<u8>,
    /// Where the line that was found last begins.
    start: usize,
    /// Where it ends.
    end: usize,
    /// Where the bytes that belong to no line yet begin.
    at: usize,
    /// The most bytes of a line.
    most: usize,
}

impl Model for LineReader {
    ghost use Rattle.std.specs.Prelude.{◌≡◌, ◌≤◌, ◌+◌, length, drop, slice_range};
    ghost use Rattle.json_lines.specs.LineReaders.{Lining};
    ghost use Rattle.json_lines.specs.LineParts.{IsParted};

    ghost Value = { Lining };

    ghost view = { λ r. record { most = r.most; line = slice_range r.bytes.items r.start r.end; held = drop r.at r.bytes.items } };

    ghost invariant = { λ r. IsParted r.chunk.items r.bytes.items r.start r.end r.at r.most };
}

impl LineReader {
    /// A reader of lines of so many bytes at most, which has read nothing.
    pub fn new(alloc: Global, most: usize) -> Result<LineReader, AllocError>
        ensures { IfOk result (λ reader. reader ≡ record { most = most; line = []; held = [] }) }
    {
        Ok(LineReader {
            chunk: vec![in alloc; 0; CHUNK_BYTES]?,
            bytes: Vec::new(alloc),
            start: 0,
            end: 0,
            at: 0,
            most,
        })
    }

    /// The line that was found last, without its line feed: none after a line that is too long, at the end, and after a fault.
    pub fn line(&self) -> &[u8]
        ensures { result.now ≡ self.now.line }
    {
        &self.bytes[self.start..self.end]
    }

    /// Finds the next line, and lets go of the last one. It makes read calls only where no whole line is held.
    ///
    /// A line that is too long stays held, so the next call finds it again.
    ///
    /// It fails if memory runs out, or the reader fails, or the line did not end in [`MAX_READ_CALLS`] calls: it then holds what
    /// was read before. O(n) for n bytes that are read, in all calls together.
    pub fn next<R: Source>(&mut self, reader: &mut R) -> Result<Found, Fault>
        ensures found { IfOk result (FindsNext (R.remaining reader.old) (R.remaining reader.new) self.old self.new) }
        ensures kept { OnErr result (TakesSome (R.remaining reader.old) (R.remaining reader.new) self.old.held self.new.held) }
        ensures same { OnErr result ((self.new.line ≡ []) × (self.new.most ≡ self.old.most)) }
        ensures error { IfErr result (λ e. (e ≡ Fault.Memory) ⊎ (e ≡ Fault.Read)) }
        ensures few { length self.new.line + length self.new.held ≤ self.new.most + CHUNK_BYTES }
        ensures calls { FindsBy R.called MAX_READ_CALLS result reader.old reader.new }
    {
        self.start = self.at;
        self.end = self.at;
        if let Some(end) = first_end(&self.bytes[self.at..], self.most) {
            return Ok(self.found(end));
        }
        drop_front(&mut self.bytes, self.at);
        self.start = 0;
        self.end = 0;
        self.at = 0;
        let end = read_to_end(
            reader,
            self.chunk.as_mut_slice(),
            &mut self.bytes,
            self.most,
        )?;
        Ok(self.found(end))
    }

    // Takes the line that ends there.
    fn found(&mut self, end: LineEnd) -> Found
        requires { EndsIn self.old.most self.old.held end }
        ensures first { IsFirst self.old.held self.new result }
        ensures over { (reader : Option (List ℕ)) → IsStreamOver reader end → IsOver reader result }
        ensures as_end { IsFoundFor end result }
        ensures most { self.new.most ≡ self.old.most }
        ensures few { length self.new.line + length self.new.held ≤ self.new.most + CHUNK_BYTES }
    {
        self.start = self.at;
        self.end = self.at;
        match end {
            LineEnd::Feed(index) => {
                self.end = self.at + index;
                self.at = self.end + 1;
                Found::Line
            }
            LineEnd::TooLong => Found::TooLong,
            LineEnd::Stream => {
                self.end = self.bytes.len();
                self.at = self.end;
                if self.start < self.end {
                    Found::Rest
                } else {
                    Found::End
                }
            }
        }
    }
}
