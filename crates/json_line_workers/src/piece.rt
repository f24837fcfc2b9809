//! Some lines of a stream, and what is made of them.
ghost use Rattle.std.specs.Prelude.{true, []};
ghost use Rattle.json_line_workers.specs.Places.{IsPartOf, IsPiece, Serves};

use crate::job::Job;
use crate::place::Place;
use crate::reading::Next;
use json_lines::{LineHandler, Part, answer_alone};
use std::alloc::Global;
use std::marker::{Model, PhantomData};

/// The lines between two places of the input, or one line that is too long.
#[derive(Drop)]
pub struct Piece<J: Job> {
    from: Place,
    until: Place,
    long: bool,
    bytes: Vec<u8>,
    of: PhantomData<J>,
}

impl<J: Job> Model for Piece<J> {
    ghost use Rattle.std.specs.Prelude.{List, ℕ};
    ghost use Rattle.json_line_workers.specs.Places.{IsPiece};

    ghost Value = { List ℕ };

    ghost view = { λ s. s.bytes.items };

    ghost invariant = { λ s. IsPiece J.input J.most s.from s.until s.long s.bytes.items };
}

impl<J: Job> Piece<J> {
    /// What comes between two places.
    pub(crate) fn of(from: Place, until: Place, next: Next) -> Piece<J>
        requires { IsPiece J.input J.most from until next.long next.bytes.items }
    {
        Piece {
            from,
            until,
            long: next.long,
            bytes: next.bytes,
            of: PhantomData,
        }
    }

    /// Answers the lines.
    pub(crate) fn answered<C: LineHandler>(self, alloc: Global, handler: &C) -> Done<J>
        requires { Serves (C.says handler.now) (C.most handler.now) J.says J.most }
    {
        let Piece {
            from,
            until,
            long,
            bytes,
            ..
        } = self;
        let part = part_of(alloc, handler, long, bytes.as_slice());
        Done {
            from,
            until,
            part,
            of: PhantomData,
        }
    }
}

/// What is made of the lines between two places of the input.
#[derive(Drop)]
pub struct Done<J: Job> {
    /// Where they begin.
    pub from: Place,
    /// Where those after them begin.
    pub until: Place,
    /// The answers.
    pub part: Part,
    /// What is answered.
    pub of: PhantomData<J>,
}

impl<J: Job> Model for Done<J> {
    ghost use Rattle.std.specs.Prelude.{ℕ};
    ghost use Rattle.json_line_workers.specs.Places.{IsDone};

    ghost Value = { ℕ };

    ghost view = { λ s. s.from.at };

    ghost invariant = { λ s. IsDone J.says J.input s.from s.until s.part };
}

// What is made of the lines of some bytes, or of a line that is too long.
fn part_of<C: LineHandler>(alloc: Global, handler: &C, long: bool, bytes: &[u8]) -> Part
    ensures { IsPartOf (C.says handler.now) (C.most handler.now) long bytes.now result }
{
    if long {
        return part_of_long(alloc, handler);
    }
    answer_alone(alloc, handler, bytes)
}

// What is made of any line that is too long.
fn part_of_long<C: LineHandler>(alloc: Global, handler: &C) -> Part
    ensures { IsPartOf (C.says handler.now) (C.most handler.now) true [] result }
{
    let mut text = Vec::new(alloc);
    let outcome = handler.answer_long(&mut text);
    Part { text, outcome }
}
