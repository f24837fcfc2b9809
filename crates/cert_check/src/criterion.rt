//! The three criteria of causal consistency, by which a history is judged.

ghost use Rattle.std.specs.Prelude.{◌≡◌};
ghost use Rattle.json_histories.specs.Reads.{IsRead};
ghost use Rattle.cert_check.specs.CriterionNames.{name_of};

/// The criteria by which a history can be judged.
///
/// In each, some causal order explains the known returns: of each operation alone (`Cc`), of it and of the operations before it in
/// its session together (`Cm`), or of each operation alone with all calls in one order (`Ccv`). A history that meets `Cm` or `Ccv`
/// meets `Cc`.
#[derive(Clone, Copy, Debug, PartialEq, Eq)]
pub enum Criterion {
    /// Causal consistency.
    Cc,
    /// Causal memory.
    Cm,
    /// Causal convergence.
    Ccv,
}

impl Criterion {
    /// The name, as certificates and reports have it: `cc`, `cm` or `ccv`.
    pub fn name(self) -> &'static str
        ensures { result.now ≡ name_of self }
    {
        match self {
            Criterion::Cc => "cc",
            Criterion::Cm => "cm",
            Criterion::Ccv => "ccv",
        }
    }

    /// The criterion of this name, or none if no criterion has it.
    pub fn named(word: &str) -> Option<Criterion>
        ensures { IsRead name_of word.now result }
    {
        if word == "cc" {
            Some(Criterion::Cc)
        } else if word == "cm" {
            Some(Criterion::Cm)
        } else if word == "ccv" {
            Some(Criterion::Ccv)
        } else {
            None
        }
    }
}
