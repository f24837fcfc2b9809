//! What is said of a run that failed.

ghost use Rattle.std.specs.Prelude.{◌≡◌, ◌⊎◌, codes, false, true, MatchBool};
ghost use Rattle.std.specs.Io.KnownBytes.{Appends};
ghost use Rattle.std.specs.Option.{option_copied};
ghost use Rattle.app_engine.specs.Failure.{line_for};
ghost use Rattle.app_process.specs.Failing.{Refuses, SaysFurther, Tells, refusal_for};
ghost use Rattle.app_process.specs.Saying.{said_lines};

use crate::place::Place;
use crate::refused::reason_of;
use crate::saying::Say;
use app_engine::{RunError, fault_line, status_of};
use app_orders::Detail;
use show_refusals::InputForm;
use std::sync::Wait;

// The status after a run for which memory was short.
const MEMORY_STATUS: u8 = 4;

/// Says the line of a run that failed, and if the detail is `Reason`, a second line on what is wrong with its input. The
/// second line is left out if memory does not suffice for both. Returns the exit status.
#[tactic(auto, using(crate::proofs::FailLaws::refuses, crate::proofs::FailLaws::refuses_short))]
pub(crate) fn report_refused<P: AllocGlobal + Eprint + Wait, E: Say>(
    place: &Place<'_, P>,
    errors: &mut E,
    error: &RunError,
    detail: Detail,
    form: InputForm,
    input: Option<&[u8]>,
) -> u8
    ensures { Refuses (option_copied place.now.label) place.now.is_terminal detail (refusal_for form error.now) error.now
        (E.said errors.old) (E.said errors.new) result }
{
    if !says_fault(place, errors, error) {
        return MEMORY_STATUS;
    }
    say_reason(place, errors, error, detail, form, input);
    status_of(&Err(*error))
}

// Says what is wrong with an input where the detail is `Reason`; else says on a terminal how to ask for that.
#[tactic(auto, using(crate::proofs::FailLaws::says_nothing, crate::proofs::FailLaws::says_reason, crate::proofs::FailLaws::says_advice))]
fn say_reason<P: AllocGlobal + Eprint + Wait, E: Say>(
    place: &Place<'_, P>,
    errors: &mut E,
    error: &RunError,
    detail: Detail,
    form: InputForm,
    input: Option<&[u8]>,
)
    ensures { SaysFurther (option_copied place.now.label) place.now.is_terminal detail (refusal_for form error.now)
        (E.said errors.old) (E.said errors.new) }
{
    let Ok(Some(reason)) = reason_of(place.rt.alloc(), input, form, error) else {
        return;
    };
    match detail {
        Detail::Reason => place.say(errors, reason.as_str()),
        Detail::Number => {
            if place.is_terminal {
                place.say(errors, ASKS_WHY);
            }
        }
    }
}

// How to ask for the reason of a refusal.
const ASKS_WHY: &str = "--why says what is wrong; a FILE in the place of '<' finds its form";

/// Says the line of a run that failed, and returns the exit status. If there is no memory for the line, it returns the
/// status for want of memory.
pub(crate) fn report<P: AllocGlobal + Eprint + Wait, E: Say>(
    place: &Place<'_, P>,
    errors: &mut E,
    error: &RunError,
) -> u8
    ensures { Tells (option_copied place.now.label) error.now (E.said errors.old) (E.said errors.new) result }
{
    if says_fault(place, errors, error) {
        status_of(&Err(*error))
    } else {
        MEMORY_STATUS
    }
}

// Says the line of a run that failed, or that memory is short for it, and returns which.
fn says_fault<P: AllocGlobal + Eprint + Wait, E: Say>(
    place: &Place<'_, P>,
    errors: &mut E,
    error: &RunError,
) -> bool
    ensures line { result ≡ true
        → Appends (E.said errors.old) (E.said errors.new) (said_lines (option_copied place.now.label) (line_for error.now)) }
    ensures short { result ≡ false
        → Appends (E.said errors.old) (E.said errors.new) (said_lines (option_copied place.now.label) (codes "no memory")) }
{
    match fault_line(place.rt.alloc(), error) {
        Ok(line) => {
            place.say(errors, line.as_str());
            true
        }
        Err(_) => {
            place.say(errors, "no memory");
            false
        }
    }
}
