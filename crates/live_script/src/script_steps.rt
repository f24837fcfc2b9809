//! Reading the steps of a script from its text.

ghost use Rattle.std.specs.Prelude.{◌≡◌, ℕ, IfOk, MatchResult};
ghost use Rattle.json_histories.specs.AnyForm.{IsJson};
ghost use Rattle.live_script.specs.ScriptForm.{IsFew, Parts, parts_form};
ghost use Rattle.live_script.specs.Steps.StepsTaken.{AreSteps, IsStepsRefusal};

use crate::arguments::next_number;
use crate::script_error::ScriptError;
use crate::step_forms::StepForms;
use crate::step_parts::StepFor;
use crate::steps_taken::{StepsTaken, next_steps};
use json::Reader;
use json_bounded::TextError;
use json_tokens::{Gather, gather_text, pass_value};
use std::alloc::Global;
use std::mem;

/// Which elements of a script were passed, with calls `C` and returns `R`.
#[derive(Drop)]
enum Passed<C, R> {
    /// None.
    Nothing,
    /// Its name.
    Name,
    /// Its name and its number of sessions.
    Sessions(usize),
    /// Its name, its number of sessions and its steps, and whatever comes after them.
    Steps(usize, StepsTaken<C, R>),
}

/// Which elements of a script of an object were passed.
type PassedOf<F> = Passed<<F as StepForms>::Call, <F as StepForms>::Ret>;

/// A script of which the steps are being read.
#[derive(Drop)]
struct ScriptSteps<F: StepForms> {
    passed: PassedOf<F>,
}

impl<F: StepForms> ScriptSteps<F> {
    /// Passes one element more.
    fn pass(&mut self, next: PassedOf<F>)
        ensures { self.new.passed ≡ next }
    {
        drop(mem::replace(&mut self.passed, next));
    }
}

impl<F: StepForms> Gather for ScriptSteps<F> {
    ghost use Rattle.live_script.specs.Steps.StepsTaken.{AreNoScript, ArePassed};

    ghost is_of = { λ script ds. ArePassed F.call_form F.return_form F.is_call script.passed ds };

    ghost refuses = { AreNoScript };

    fn take_next(
        &mut self,
        alloc: Global,
        reader: &mut Reader<'_>,
        depth: usize,
    ) -> Result<bool, TextError> {
        match &self.passed {
            Passed::Nothing => {
                pass_value(alloc, reader, depth)?;
                self.pass(Passed::Name);
                Ok(true)
            }
            Passed::Name => {
                let Some(sessions) = next_number(alloc, reader, depth)? else {
                    return Ok(false);
                };
                self.pass(Passed::Sessions(sessions));
                Ok(true)
            }
            Passed::Sessions(sessions) => {
                let sessions = *sessions;
                match next_steps::<F>(alloc, reader, depth, sessions)? {
                    Some(steps) => {
                        self.pass(Passed::Steps(sessions, steps));
                        Ok(true)
                    }
                    None => Ok(false),
                }
            }
            Passed::Steps(_, _) => {
                pass_value(alloc, reader, depth)?;
                Ok(true)
            }
        }
    }
}

/// The steps of the script that the text is, for as many sessions as it says.
///
/// Call it on a text that has the parts of a script: of other texts it promises nothing. `BadStep` with the place of a step that has no
/// form, and `TooManySteps` where the steps up to here expand to more than 65,536, whichever comes first. `Memory` only where an allocation
/// was refused. O(n) for n bytes.
pub(crate) fn read_steps<F: StepForms>(
    alloc: Global,
    text: &[u8],
) -> Result<Vec<StepFor<F>>, ScriptError>
    ensures few { IfOk result (λ kept. (k : ℕ) → IsFew k kept.items) }
    ensures read { (p : Parts) → IsJson text.now (parts_form p)
        → MatchResult result (λ kept. AreSteps F.call_form F.return_form F.is_call p.sessions p.steps kept.items)
        (IsStepsRefusal F.call_form F.return_form F.is_call p.sessions p.steps) }
{
    let mut script = ScriptSteps::<F> {
        passed: Passed::Nothing,
    };
    match gather_text(alloc, text, &mut script) {
        Ok(true) => {
            let Passed::Steps(_, taken) = script.passed else {
                return Err(ScriptError::BadShape);
            };
            match taken {
                StepsTaken::Fine(steps, _) => Ok(steps),
                StepsTaken::Refused(error) => Err(error),
            }
        }
        Ok(false) => {
            drop(script);
            Err(ScriptError::BadShape)
        }
        Err(TextError::NotJson) => {
            drop(script);
            Err(ScriptError::NotJson)
        }
        Err(TextError::Memory) => {
            drop(script);
            Err(ScriptError::Memory)
        }
    }
}
