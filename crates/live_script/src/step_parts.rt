//! What was taken of a step, one element after the other.

ghost use Rattle.std.specs.Prelude.{◌≡◌};
ghost use Rattle.live_script.specs.declared.step_parts.StepParts.TheVariants.{Whole};
ghost use Rattle.live_script.specs.declared.written_step.WrittenStep.TheVariants.{Once};
ghost use Rattle.live_script.specs.Steps.StepParts.{alone, number_after, number_of, wanted_after_number, wanted_after_word, wanted_next};
ghost use Rattle.live_script.specs.Steps.StepParts.{whole_of, with_argument, with_number, with_plain, word_with_number};

use crate::step_argument::{Argument, ArgumentKind, Plain, PlainKind};
use crate::step_forms::StepForms;
use crate::step_word::StepWord;
use crate::written_step::WrittenStep;
use live_simulation::StepOf;
use model_history::OpId;

/// What was taken of a step with calls `C` and returns `R`.
#[derive(Drop)]
pub(crate) enum StepParts<C, R> {
    /// Nothing.
    Nothing,
    /// Its word.
    Word(StepWord),
    /// Its word and a number.
    Number(StepWord, usize),
    /// The word of a check of a piece, the case, and the session of the operation.
    Piece(usize, usize),
    /// As much as a step with its word may have.
    Whole(WrittenStep<C, R>),
}

/// What was taken of a step of an object.
pub(crate) type PartsOf<F> = StepParts<<F as StepForms>::Call, <F as StepForms>::Ret>;

/// A step of an object, as a script writes it.
pub(crate) type StepFor<F> = WrittenStep<<F as StepForms>::Call, <F as StepForms>::Ret>;

/// The kind of argument that comes after a word, or none where none does.
fn wanted_after_word(word: StepWord) -> Option<ArgumentKind>
    ensures { result ≡ wanted_after_word word }
{
    match word {
        StepWord::Start => Some(ArgumentKind::Plain(PlainKind::Counts)),
        StepWord::Take => None,
        StepWord::Begin
        | StepWord::End
        | StepWord::Look
        | StepWord::Show
        | StepWord::File
        | StepWord::Work
        | StepWord::Put
        | StepWord::Refute
        | StepWord::Ask => Some(ArgumentKind::Plain(PlainKind::Number)),
    }
}

/// The kind of argument that comes after a word and a number, or none where none does.
fn wanted_after_number(word: StepWord) -> Option<ArgumentKind>
    ensures { result ≡ wanted_after_number word }
{
    match word {
        StepWord::Begin => Some(ArgumentKind::Call),
        StepWord::End => Some(ArgumentKind::Return),
        StepWord::Look => Some(ArgumentKind::Plain(PlainKind::Times)),
        StepWord::File => Some(ArgumentKind::Plain(PlainKind::Case)),
        StepWord::Work | StepWord::Put => Some(ArgumentKind::Plain(PlainKind::Number)),
        StepWord::Refute => Some(ArgumentKind::Plain(PlainKind::Pattern)),
        StepWord::Start | StepWord::Show | StepWord::Take | StepWord::Ask => None,
    }
}

/// What was taken with one more number after a word and a number, or none where no second number is wanted.
fn number_after<C, R>(word: StepWord, before: usize, number: usize) -> Option<StepParts<C, R>>
    ensures { result ≡ number_after word before number }
{
    match word {
        StepWord::Work => Some(StepParts::Piece(before, number)),
        StepWord::Put => Some(StepParts::once(StepOf::Put(before, number))),
        StepWord::Begin
        | StepWord::End
        | StepWord::Start
        | StepWord::Look
        | StepWord::Show
        | StepWord::File
        | StepWord::Take
        | StepWord::Refute
        | StepWord::Ask => None,
    }
}

/// The step that a word is by itself.
fn word_alone<C, R>(word: StepWord) -> Option<WrittenStep<C, R>>
    ensures { result ≡ alone word }
{
    match word {
        StepWord::Start => Some(WrittenStep::StartUntold),
        StepWord::Take => Some(WrittenStep::Once(StepOf::Take)),
        StepWord::Begin
        | StepWord::End
        | StepWord::Look
        | StepWord::Show
        | StepWord::File
        | StepWord::Work
        | StepWord::Put
        | StepWord::Refute
        | StepWord::Ask => None,
    }
}

/// The step that a word is with a number.
fn word_with_number<C, R>(word: StepWord, number: usize) -> Option<WrittenStep<C, R>>
    ensures { result ≡ word_with_number word number }
{
    match word {
        StepWord::Look => Some(WrittenStep::Once(StepOf::Look(number))),
        StepWord::Show => Some(WrittenStep::Once(StepOf::Show(number))),
        StepWord::Ask => Some(WrittenStep::Once(StepOf::Ask(number))),
        StepWord::Begin
        | StepWord::End
        | StepWord::Start
        | StepWord::File
        | StepWord::Take
        | StepWord::Work
        | StepWord::Put
        | StepWord::Refute => None,
    }
}

impl<C, R> StepParts<C, R> {
    /// One step of the world, of which no more is taken.
    fn once(step: StepOf<C, R>) -> StepParts<C, R>
        ensures { result ≡ Whole (Once step) }
    {
        StepParts::Whole(WrittenStep::Once(step))
    }

    /// The kind of argument that comes next, or none where no step goes on.
    pub(crate) fn wanted(&self) -> Option<ArgumentKind>
        ensures { result ≡ wanted_next self.now }
    {
        match self {
            StepParts::Nothing => Some(ArgumentKind::Plain(PlainKind::Word)),
            StepParts::Word(word) => wanted_after_word(*word),
            StepParts::Number(word, _) => wanted_after_number(*word),
            StepParts::Piece(_, _) => Some(ArgumentKind::Plain(PlainKind::Number)),
            StepParts::Whole(_) => None,
        }
    }

    /// The number after the word, or 0 where there is none.
    fn number(&self) -> usize
        ensures { result ≡ number_of self.now }
    {
        match self {
            StepParts::Number(_, number) => *number,
            StepParts::Nothing
            | StepParts::Word(_)
            | StepParts::Piece(_, _)
            | StepParts::Whole(_) => 0,
        }
    }

    /// What was taken with one more number, or none where no number is wanted.
    fn with_number(&self, number: usize) -> Option<StepParts<C, R>>
        ensures { result ≡ with_number self.now number }
    {
        match self {
            StepParts::Word(word) => Some(StepParts::Number(*word, number)),
            StepParts::Number(word, before) => number_after(*word, *before, number),
            StepParts::Piece(case, session) => {
                let op = OpId::at(*session, number);
                Some(StepParts::once(StepOf::Work(*case, op)))
            }
            StepParts::Nothing | StepParts::Whole(_) => None,
        }
    }

    /// What was taken with one more argument of any object's steps, which is of the wanted kind.
    fn with_plain(&self, plain: Plain) -> Option<StepParts<C, R>>
        ensures { result ≡ with_plain self.now plain }
    {
        let number = self.number();
        match plain {
            Plain::Word(word) => Some(StepParts::Word(word)),
            Plain::Number(next) => self.with_number(next),
            Plain::Times(times) => Some(StepParts::Whole(WrittenStep::Looks(number, times))),
            Plain::Counts(counts) => Some(StepParts::once(StepOf::Start(counts))),
            Plain::Case(criterion, certificate) => {
                Some(StepParts::once(StepOf::File(number, criterion, certificate)))
            }
            Plain::Pattern(pattern) => Some(StepParts::once(StepOf::Refute(number, pattern))),
        }
    }

    /// What was taken with one more argument, which is of the wanted kind.
    pub(crate) fn with_argument(&self, argument: Argument<C, R>) -> Option<StepParts<C, R>>
        ensures { result ≡ with_argument self.now argument }
    {
        match argument {
            Argument::Call(call) => Some(StepParts::once(StepOf::Begin(self.number(), call))),
            Argument::Return(ret) => Some(StepParts::once(StepOf::End(self.number(), ret))),
            Argument::Plain(plain) => self.with_plain(plain),
        }
    }

    /// The step that was taken, where no more is taken, or none where this is all of no step.
    pub(crate) fn whole(self) -> Option<WrittenStep<C, R>>
        ensures { result ≡ whole_of self }
    {
        match self {
            StepParts::Nothing | StepParts::Piece(_, _) => None,
            StepParts::Word(word) => word_alone(word),
            StepParts::Number(word, number) => word_with_number(word, number),
            StepParts::Whole(step) => Some(step),
        }
    }
}
