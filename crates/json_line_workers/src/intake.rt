//! Handing out the lines of a stream to several workers.
ghost use Rattle.std.specs.Prelude.{◌≡◌, ◌≢◌, ◌<◌, Err, IfErr, IfOk, IfSome, OnOk, Some, vec_len};
ghost use Rattle.std.specs.Io.KnownBytes.{IsAtEnd};
ghost use Rattle.json_lines.specs.ReadCalls.{CallsOnceAtMost, EndsBy, FindsNoEnd, IsEnd as FoundEnd, IsFurther, ReadsOn};
ghost use Rattle.json_line_workers.specs.Places.{IsEnd};

use crate::held::Held;
use crate::job::{Job, ReadFrom};
use crate::piece::Piece;
use crate::place::Place;
use crate::reading::next_lines;
use json_lines::{Fault, MAX_READ_CALLS, Source};
use std::alloc::Global;
use std::marker::{Model, PhantomData};

/// What is read and not yet handed out, under a lock.
#[derive(Drop)]
pub struct Intake<J: Job + ReadFrom<R>, R: Source + Drop> {
    reader: R,
    chunk: Vec<u8>,
    held: Held,
    most: usize,
    over: bool,
    ended: bool,
    fault: Option<Fault>,
    of: PhantomData<J>,
}

impl<J: Job + ReadFrom<R>, R: Source + Drop> Model for Intake<J, R> {
    ghost use Rattle.std.specs.Prelude.{◌≡◌, ◌≢◌, ◌<◌, ◌≤◌, ◌+◌, Bool, IfSome, Some, false, true, length, vec_len};
    ghost use Rattle.std.specs.Io.KnownBytes.{IsAtEnd};
    ghost use Rattle.json_lines.specs.ReadCalls.{IsFurther};
    ghost use Rattle.json_lines.specs.declared.fault.Fault.TheVariants.{Write};
    ghost use Rattle.json_line_workers.specs.Calls.{IsRead};
    ghost use Rattle.json_line_workers.specs.Places.{IsEnd};
    ghost use Rattle.json_line_workers.specs.Pieces.{IsReading};

    ghost Value = { Bool };

    ghost view = { λ s. s.over };

    ghost invariant = { λ s. (0 < vec_len s.chunk) × (s.most ≡ J.most)
        × (length s.held.bytes.items ≤ s.most + length s.chunk.items)
        × (s.over ≡ false → IsReading J.input s.held (R.remaining s.reader))
        × (s.ended ≡ true → IsEnd J.input s.held.at × IsAtEnd (R.remaining s.reader))
        × (s.fault ≢ Some Write) × IsFurther J.input (R.remaining s.reader)
        × IfSome J.reader (λ first. IsRead R.called first s.reader s.over s.ended s.fault) };
}

impl<J: Job + ReadFrom<R>, R: Source + Drop> Intake<J, R> {
    /// Nothing is read yet.
    pub(crate) fn new(alloc: Global, reader: R, chunk: Vec<u8>, most: usize) -> Intake<J, R>
        requires room { 0 < vec_len chunk }
        requires most { most ≡ J.most }
        requires input { R.remaining reader ≡ J.input }
        requires first { IfSome J.reader (λ first. first ≡ reader) }
    {
        Intake {
            reader,
            chunk,
            held: Held::new(alloc),
            most,
            over: false,
            ended: false,
            fault: None,
            of: PhantomData,
        }
    }

    /// The lines that come next, where there are any. It reads until a whole line is at hand. After a fault there are none.
    pub(crate) fn take(&mut self, alloc: Global) -> Option<Piece<J>> {
        if self.over {
            return None;
        }
        self.over = true;
        self.ended = false;
        let from = self.held.at;
        let taken = next_lines::<J, R>(
            alloc,
            &mut self.reader,
            self.chunk.as_mut_slice(),
            &mut self.held,
            self.most,
        );
        match taken {
            Ok(next) => {
                self.over = next.last;
                self.ended = next.last;
                Some(Piece::of(from, self.held.at, next))
            }
            Err(fault) => {
                self.fault = Some(fault);
                None
            }
        }
    }

    /// The reader, and where the input ends if all of it was handed out, or why it was not. Where the workers stopped before that, without
    /// a fault of the reader, it says want of memory.
    pub(crate) fn ended(self) -> (R, Result<Place, Fault>)
        ensures end { IfOk result.1 (λ place. IsEnd J.input place × IsAtEnd (R.remaining result.0)) }
        ensures further { IsFurther J.input (R.remaining result.0) }
        ensures error { IfErr result.1 (λ e. e ≢ Fault.Write) }
        ensures calls { IfSome J.reader (λ first. ReadsOn R.called (CallsOnceAtMost R.called) first result.0) }
        ensures end_found { OnOk result.1
            (IfSome J.reader (λ first. ReadsOn R.called (EndsBy R.called MAX_READ_CALLS FoundEnd) first result.0)) }
        ensures fault { result.1 ≡ Err Fault.Read
            → IfSome J.reader (λ first. ReadsOn R.called (FindsNoEnd R.called MAX_READ_CALLS) first result.0) }
    {
        let Intake {
            reader,
            held,
            ended,
            fault,
            ..
        } = self;
        if ended {
            return (reader, Ok(held.at));
        }
        match fault {
            Some(fault) => (reader, Err(fault)),
            None => (reader, Err(Fault::Memory)),
        }
    }
}
