//! The steps of a script that were read so far, or why they are refused.

ghost use Rattle.std.specs.Prelude.{◌≡◌, ◌∷◌, ◌++◌, ◌<◌, ◌≤◌, ℕ, [], List, Some, length, IfOk, IfErr, OnOk};
ghost use Rattle.serde_json.specs.Data.{Data};
ghost use Rattle.json_bounded.specs.Steps.Reading.{AreRefused, IsRefused};
ghost use Rattle.live_script.specs.declared.steps_taken.StepsTaken.TheVariants.{Fine};
ghost use Rattle.live_script.specs.Steps.StepParts.{IsStepIn};
ghost use Rattle.live_script.specs.Steps.StepsTaken.{AreTaken, IsTakenList};
ghost use Rattle.json_tokens.specs.Tokens.{IsList, IsRest};

use crate::reading_steps::next_step;
use crate::script::MAX_STEPS;
use crate::script_error::ScriptError;
use crate::step_forms::StepForms;
use crate::step_parts::StepFor;
use crate::written_step::WrittenStep;
use json::{Reader, Token};
use json_bounded::TextError;
use json_tokens::{next_token, pass_no_list};
use std::alloc::{AllocError, Global};

/// Steps with calls `C` and returns `R` that were read so far.
#[derive(Drop)]
pub(crate) enum StepsTaken<C, R> {
    /// The steps, and how many more steps of the world there may be.
    Fine(Vec<WrittenStep<C, R>>, usize),
    /// Why they are refused.
    Refused(ScriptError),
}

/// Steps of an object that were read so far.
pub(crate) type TakenOf<F> = StepsTaken<<F as StepForms>::Call, <F as StepForms>::Ret>;

/// The steps with one more, or the refusal of that one where there is none before.
fn with_step<F: StepForms>(
    taken: TakenOf<F>,
    step: Option<StepFor<F>>,
) -> Result<TakenOf<F>, AllocError>
    ensures { IfOk result (λ more. (k : ℕ) (ds : List Data) (d : Data) → AreTaken F.call_form F.return_form F.is_call k taken ds
        → IsStepIn F.call_form F.return_form F.is_call k d step → AreTaken F.call_form F.return_form F.is_call k more (ds ++ d ∷ [])) }
{
    match taken {
        StepsTaken::Fine(steps, room) => match step {
            Some(step) => with_fine_step::<F>(steps, room, step),
            None => {
                let place = steps.len();
                drop(steps);
                Ok(StepsTaken::Refused(ScriptError::BadStep(place)))
            }
        },
        StepsTaken::Refused(error) => {
            drop(step);
            Ok(StepsTaken::Refused(error))
        }
    }
}

/// The steps with one more, or its refusal where it expands to more steps than there is room for.
fn with_fine_step<F: StepForms>(
    mut steps: Vec<StepFor<F>>,
    room: usize,
    step: StepFor<F>,
) -> Result<TakenOf<F>, AllocError>
    ensures { IfOk result (λ more. (k : ℕ) (ds : List Data) (d : Data)
        → AreTaken F.call_form F.return_form F.is_call k (Fine steps room) ds
        → IsStepIn F.call_form F.return_form F.is_call k d (Some step)
        → AreTaken F.call_form F.return_form F.is_call k more (ds ++ d ∷ [])) }
{
    let more = step.count();
    if more > room {
        drop(steps);
        drop(step);
        return Ok(StepsTaken::Refused(ScriptError::TooManySteps));
    }
    steps.push(step)?;
    Ok(StepsTaken::Fine(steps, room - more))
}

/// The steps of a script for `k` sessions in the rest of a list. It passes the list.
fn rest_of_steps<F: StepForms>(
    alloc: Global,
    reader: &mut Reader<'_>,
    depth: usize,
    k: usize,
) -> Result<TakenOf<F>, TextError>
    ensures read { IfOk result
        (λ taken. IsRest (AreTaken F.call_form F.return_form F.is_call k taken) depth reader.old reader.new) }
    ensures shorter { OnOk result (length reader.new ≤ length reader.old) }
    ensures refused { IfErr result (AreRefused depth reader.old) }
{
    let mut taken = StepsTaken::Fine(Vec::new(alloc), MAX_STEPS);
    'steps: while !reader.take_end_array() {
        match next_step::<F>(alloc, reader, depth, k) {
            Ok(step) => taken = with_step::<F>(taken, step)?,
            Err(error) => {
                drop(taken);
                return Err(error);
            }
        }
    }
    Ok(taken)
}

/// The steps of a script for `k` sessions that come next, or none where the next value is no list. It passes the value.
pub(crate) fn next_steps<F: StepForms>(
    alloc: Global,
    reader: &mut Reader<'_>,
    depth: usize,
    k: usize,
) -> Result<Option<TakenOf<F>>, TextError>
    ensures read { IfOk result
        (λ taken. IsList (IsTakenList F.call_form F.return_form F.is_call k taken) depth reader.old reader.new) }
    ensures shorter { OnOk result (length reader.new < length reader.old) }
    ensures refused { IfErr result (IsRefused depth reader.old) }
{
    let token = next_token(reader)?;
    let Token::BeginArray = token else {
        pass_no_list(alloc, token, reader, depth)?;
        return Ok(None);
    };
    if depth == 0 {
        return Err(TextError::NotJson);
    }
    match rest_of_steps::<F>(alloc, reader, depth - 1, k) {
        Ok(taken) => Ok(Some(taken)),
        Err(error) => Err(error),
    }
}
