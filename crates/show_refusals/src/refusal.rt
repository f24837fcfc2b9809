//! Refused inputs.

use json_histories::ReadError;

/// What an input is to be.
#[derive(Clone, Copy, Debug, PartialEq, Eq)]
pub enum InputForm {
    /// A history.
    History,
    /// A history of a memory, of any length.
    LongHistory,
    /// A list of a history and a certificate.
    Certified,
    /// A list of a history, the name of a criterion and a pattern.
    Claim,
    /// The same of a memory of any length.
    LongClaim,
    /// A script.
    Script,
}

/// Why an input was refused.
#[derive(Clone, Copy, Debug, PartialEq, Eq)]
pub enum Refusal {
    /// The text is no history, or no script: it is no JSON, has another shape or an unknown object, or something in it is refused.
    Read(ReadError),
    /// A script has no session, or more than 16.
    BadSessions,
    /// The step of a script at this place has no form.
    BadStep(usize),
    /// The steps of a script unfold to more steps than are run.
    TooManySteps,
    /// The certificate does not have the form of one.
    BadCertificate,
    /// The certificate does not have the shape of the history.
    ShapeMismatch,
    /// What comes after the history does not show that the criterion is not met.
    NotThatPattern,
    /// The history to drive has no session.
    NoSession,
    /// The history to drive lacks the session that is to stop.
    NoSuchSession,
    /// The input has too many bytes.
    TooLong,
    /// The input has too many bytes even for a history of any length.
    OverLong,
}
