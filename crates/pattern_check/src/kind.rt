//! The kinds of bad patterns, their names, and the criteria that each excludes.

ghost use Rattle.std.specs.Prelude.{◌≡◌};
ghost use Rattle.json_histories.specs.Reads.{IsRead};
ghost use Rattle.pattern_check.specs.KindNames.{kind_name};
ghost use Rattle.pattern_check.specs.Kinds.{is_against};

use cert_check::Criterion;

/// The kinds of bad patterns, after Bouajjani, Enea, Guerraoui and Hamza, "On Verifying Causal Consistency" (2017).
///
/// The first four are against every criterion, the next two against causal memory, and the last against causal
/// convergence.
#[derive(Clone, Copy, Debug, PartialEq, Eq)]
pub enum Kind {
    /// The causal order has a cycle.
    CyclicCO,
    /// A read of a value that nobody wrote.
    ThinAirRead,
    /// A read of the initial value of a variable after a write of it.
    WriteCOInitRead,
    /// A read from a write after another write of the variable came between.
    WriteCORead,
    /// What an operation's session has read puts a write before a read of the initial value.
    WriteHBInitRead,
    /// What an operation's session has read puts an operation before itself.
    CyclicHB,
    /// The causal order and the conflicts of writes have a cycle together.
    CyclicCF,
}

impl Kind {
    /// Whether a history with a pattern of this kind can't meet the criterion.
    pub fn is_against(self, criterion: Criterion) -> bool
        ensures { result ≡ is_against self criterion }
    {
        match self {
            Kind::CyclicCO | Kind::ThinAirRead | Kind::WriteCOInitRead | Kind::WriteCORead => true,
            Kind::WriteHBInitRead | Kind::CyclicHB => criterion == Criterion::Cm,
            Kind::CyclicCF => criterion == Criterion::Ccv,
        }
    }

    /// The name, as in patterns and reports.
    pub fn name(self) -> &'static str
        ensures { result.now ≡ kind_name self }
    {
        match self {
            Kind::CyclicCO => "CyclicCO",
            Kind::ThinAirRead => "ThinAirRead",
            Kind::WriteCOInitRead => "WriteCOInitRead",
            Kind::WriteCORead => "WriteCORead",
            Kind::WriteHBInitRead => "WriteHBInitRead",
            Kind::CyclicHB => "CyclicHB",
            Kind::CyclicCF => "CyclicCF",
        }
    }

    /// The kind with this name, or none if no kind has it.
    pub fn named(word: &str) -> Option<Kind>
        ensures { IsRead kind_name word.now result }
    {
        match word {
            "CyclicCO" => Some(Kind::CyclicCO),
            "ThinAirRead" => Some(Kind::ThinAirRead),
            "WriteCOInitRead" => Some(Kind::WriteCOInitRead),
            "WriteCORead" => Some(Kind::WriteCORead),
            "WriteHBInitRead" => Some(Kind::WriteHBInitRead),
            "CyclicHB" => Some(Kind::CyclicHB),
            "CyclicCF" => Some(Kind::CyclicCF),
            _ => None,
        }
    }
}
