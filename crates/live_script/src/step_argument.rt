//! What a step names after its word: arguments, and their kinds.

use crate::step_word::StepWord;
use cert_check::{Certificate, Criterion};
use live_simulation::Told;
use pattern_check::Pattern;

/// A kind of argument of any object's steps.
#[derive(Clone, Copy)]
pub(crate) enum PlainKind {
    /// The word itself.
    Word,
    /// A number.
    Number,
    /// A number of looks.
    Times,
    /// Counts, one for each session.
    Counts,
    /// A criterion, or a certificate.
    Case,
    /// A pattern.
    Pattern,
}

/// A kind of argument, by which a reader knows what to read.
#[derive(Clone, Copy)]
pub(crate) enum ArgumentKind {
    /// A call.
    Call,
    /// A return.
    Return,
    /// An argument of any object's steps.
    Plain(PlainKind),
}

/// An argument of any object's steps.
#[derive(Drop)]
pub(crate) enum Plain {
    /// The word itself.
    Word(StepWord),
    /// A number.
    Number(usize),
    /// A number of looks.
    Times(usize),
    /// Counts, one for each session.
    Counts(Told),
    /// A criterion, with its certificate where it has one.
    Case(Criterion, Option<Certificate>),
    /// A pattern.
    Pattern(Pattern),
}

/// An argument, with calls `C` and returns `R`.
#[derive(Drop)]
pub(crate) enum Argument<C, R> {
    /// A call.
    Call(C),
    /// A return.
    Return(R),
    /// An argument of any object's steps.
    Plain(Plain),
}
