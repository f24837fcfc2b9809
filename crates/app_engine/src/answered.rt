//! An answer, and what comes of it.
ghost use Rattle.std.specs.Prelude.{◌≡◌, string_bytes};

use json_lines::Outcome;

/// An answer, and what comes of it.
#[derive(Drop)]
pub struct Answered {
    /// The answer.
    pub text: String,
    /// What comes of it where criteria are expected to be met.
    pub outcome: Outcome,
}

impl Answered {
    /// An answer that is not expected to meet anything.
    pub fn met(text: String) -> Answered
        ensures text { string_bytes result.text ≡ string_bytes text }
        ensures outcome { result.outcome ≡ Outcome.Met }
    {
        Answered {
            text,
            outcome: Outcome::Met,
        }
    }
}
