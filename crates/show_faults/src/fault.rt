//! A read that shows a fault.

ghost use Rattle.std.specs.Prelude.{◌≡◌};
ghost use Rattle.show_faults.specs.Faults.{kind_of, read_of};

use model_history::OpId;
use pattern_check::Kind;

/// A read that shows a fault, and the write that it missed: of its variable, before it in the causal order, and after what it returned.
#[derive(Clone, Copy, Debug, PartialEq, Eq)]
pub enum Fault {
    /// It returned a value that is not the initial one and that nobody wrote.
    ThinAirRead {
        read: OpId,
    },
    /// It returned the initial value.
    WriteCOInitRead {
        read: OpId,
        missed: OpId,
    },
    /// It returned the value of the source, and the missed write is after the source.
    WriteCORead {
        read: OpId,
        source: OpId,
        missed: OpId,
    },
}

impl Fault {
    /// The read.
    pub fn read(self) -> OpId
        ensures { result ≡ read_of self }
    {
        match self {
            Fault::ThinAirRead { read }
            | Fault::WriteCOInitRead { read, .. }
            | Fault::WriteCORead { read, .. } => read,
        }
    }

    /// The kind of bad pattern that it shows.
    pub fn kind(self) -> Kind
        ensures { result ≡ kind_of self }
    {
        match self {
            Fault::ThinAirRead { .. } => Kind::ThinAirRead,
            Fault::WriteCOInitRead { .. } => Kind::WriteCOInitRead,
            Fault::WriteCORead { .. } => Kind::WriteCORead,
        }
    }
}
