//! Bad patterns, each of a kind and with the operations that show it.

ghost use Rattle.std.specs.Prelude.{◌≡◌};
ghost use Rattle.pattern_check.specs.Patterns.{kind_of};

use crate::derivation::Derivation;
use crate::kind::Kind;
use crate::link::Links;
use crate::path::Path;
use model_history::OpId;

/// A bad pattern, with the operations that show it.
#[derive(Debug, Drop)]
pub enum Pattern {
    /// A path with an edge that ends where it begins.
    CyclicCO(Path),
    /// The read of a value that nobody wrote.
    ThinAirRead(OpId),
    /// A path from a write to a read of the initial value of its variable.
    WriteCOInitRead(Path),
    /// A path from a write to another write of its variable, and one from there to a read that reads from the first.
    WriteCORead(Path, Path),
    /// A derivation for the operation, the last line of which gives a write and a read of the initial value of its variable,
    /// where the read is the operation or is before it in program order.
    WriteHBInitRead(OpId, Derivation),
    /// A derivation for the operation, the last line of which gives one operation twice.
    CyclicHB(OpId, Derivation),
    /// Links, each of which begins where the one before ends, and the first where the last ends.
    CyclicCF(Links),
}

impl Pattern {
    /// Its kind.
    pub fn kind(&self) -> Kind
        ensures { result ≡ kind_of self.now }
    {
        match self {
            Pattern::CyclicCO(_) => Kind::CyclicCO,
            Pattern::ThinAirRead(_) => Kind::ThinAirRead,
            Pattern::WriteCOInitRead(_) => Kind::WriteCOInitRead,
            Pattern::WriteCORead(_, _) => Kind::WriteCORead,
            Pattern::WriteHBInitRead(_, _) => Kind::WriteHBInitRead,
            Pattern::CyclicHB(_, _) => Kind::CyclicHB,
            Pattern::CyclicCF(_) => Kind::CyclicCF,
        }
    }
}
