//! What is said of an input that is refused.

ghost use Rattle.std.specs.Prelude.{◌≡◌, None, IfOk, MatchOption, string_bytes};
ghost use Rattle.app_process.specs.Failing.{IsReason, form_for, history_form, long_refusal, refusal_for, script_refusal};

use app_engine::RunError;
use app_orders::{Length, Order};
use json_histories::ReadError;
use live_script::ScriptError;
use show_refusals::{InputForm, Refusal, reason_for};
use std::alloc::{AllocError, Global};

/// What is wrong with an input of this form, where, and what is wanted; nothing if the run failed for another reason.
pub(crate) fn reason_of(
    alloc: Global,
    input: Option<&[u8]>,
    form: InputForm,
    error: &RunError,
) -> Result<Option<String>, AllocError>
    ensures { IfOk result (λ found. MatchOption found (refusal_for form error.now ≡ None)
        (λ reason. IsReason (refusal_for form error.now) (string_bytes reason))) }
{
    match refusal_of(form, error) {
        Some(refusal) => Ok(Some(reason_for(alloc, input, form, refusal)?)),
        None => Ok(None),
    }
}

/// What the input of an order is to be.
pub(crate) fn form_of(order: &Order) -> InputForm
    ensures { result ≡ form_for order.now }
{
    match order {
        Order::Judge(judging) => history_form(judging.length),
        Order::ExplainLong(_) => InputForm::LongHistory,
        Order::ListFaults(listing) => history_form(listing.length),
        Order::JudgeLines(_) | Order::Explain(_) | Order::Drive(_) => InputForm::History,
        Order::Check(_) => InputForm::Certified,
        Order::Refute(Length::Limited) => InputForm::Claim,
        Order::Refute(Length::Any) => InputForm::LongClaim,
        Order::Replay => InputForm::Script,
    }
}

/// What a history of this length is to be.
pub(crate) fn history_form(length: Length) -> InputForm
    ensures { result ≡ history_form length }
{
    match length {
        Length::Limited => InputForm::History,
        Length::Any => InputForm::LongHistory,
    }
}

// Why the input of this form was refused, where that is why a run failed.
fn refusal_of(form: InputForm, error: &RunError) -> Option<Refusal>
    ensures { result ≡ refusal_for form error.now }
{
    match error {
        RunError::History(refused) => Some(Refusal::Read(*refused)),
        RunError::Script(refused) => refusal_of_script(refused),
        RunError::BadCertificate => Some(Refusal::BadCertificate),
        RunError::ShapeMismatch => Some(Refusal::ShapeMismatch),
        RunError::NotThatPattern => Some(Refusal::NotThatPattern),
        RunError::BadLimits => Some(Refusal::NoSession),
        RunError::NoSuch => Some(Refusal::NoSuchSession),
        RunError::TooLong => Some(long_refusal(form)),
        RunError::Memory | RunError::ReadFault | RunError::WriteFault => None,
    }
}

// Why an input that is too long was refused.
fn long_refusal(form: InputForm) -> Refusal
    ensures { result ≡ long_refusal form }
{
    match form {
        InputForm::LongHistory | InputForm::LongClaim => Refusal::OverLong,
        InputForm::History | InputForm::Certified | InputForm::Claim | InputForm::Script => {
            Refusal::TooLong
        }
    }
}

// Why a script was refused, where it was.
fn refusal_of_script(error: &ScriptError) -> Option<Refusal>
    ensures { result ≡ script_refusal error.now }
{
    match error {
        ScriptError::NotJson => Some(Refusal::Read(ReadError::NotJson)),
        ScriptError::BadShape => Some(Refusal::Read(ReadError::BadShape)),
        ScriptError::UnknownObject => Some(Refusal::Read(ReadError::UnknownObject)),
        ScriptError::BadInitial => Some(Refusal::Read(ReadError::BadInitial)),
        ScriptError::BadLimits => Some(Refusal::BadSessions),
        ScriptError::BadStep(place) => Some(Refusal::BadStep(*place)),
        ScriptError::TooManySteps => Some(Refusal::TooManySteps),
        ScriptError::Memory => None,
    }
}
