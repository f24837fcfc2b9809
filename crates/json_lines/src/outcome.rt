//! The outcomes of answers.
ghost use Rattle.std.specs.Prelude.{◌≡◌, ◌≤◌};
ghost use Rattle.json_lines.specs.Outcomes.{status_of_outcome, worse as worse_of};

/// The outcome of an answer, or of several.
#[derive(Clone, Copy, Debug, PartialEq, Eq)]
pub enum Outcome {
    /// All that was expected holds.
    Met,
    /// Something that was expected is unknown.
    Unknown,
    /// Something that was expected does not hold.
    Excluded,
    /// A line was refused.
    Refused,
}

impl Outcome {
    /// The outcome of two answers: `Refused` counts most, then `Excluded`, then `Unknown`.
    pub fn worse(self, other: Outcome) -> Outcome
        ensures { result ≡ worse_of self other }
    {
        match (self, other) {
            (Outcome::Refused, _) | (_, Outcome::Refused) => Outcome::Refused,
            (Outcome::Excluded, _) | (_, Outcome::Excluded) => Outcome::Excluded,
            (Outcome::Unknown, _) | (_, Outcome::Unknown) => Outcome::Unknown,
            (Outcome::Met, Outcome::Met) => Outcome::Met,
        }
    }

    /// The exit status for the outcome of a run: 0 where all that was expected holds, 1 where a line was refused, 5 where something
    /// does not hold, and else 6.
    pub fn status(self) -> u8
        ensures status { result ≡ status_of_outcome self }
        ensures few { result ≤ 6 }
    {
        match self {
            Outcome::Met => 0,
            Outcome::Refused => 1,
            Outcome::Excluded => 5,
            Outcome::Unknown => 6,
        }
    }
}
