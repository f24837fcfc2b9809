//! How many reads show a fault.

ghost use Rattle.std.specs.Prelude.{◌≡◌, ◌+◌, ◌∷◌, ◌++◌, List, []};
ghost use Rattle.show_faults.specs.declared.fault.Fault.{Fault as AFault};
ghost use Rattle.show_faults.specs.Tallies.{AreCounts, IsBelow, count_of};

use crate::fault::Fault;
use pattern_check::Kind;

/// How many reads show a fault, by its kind.
#[derive(Clone, Copy, Debug, PartialEq, Eq)]
pub struct FaultCounts {
    /// Reads of values that nobody wrote.
    pub thin_air: u32,
    /// Reads of initial values that had been overwritten.
    pub start: u32,
    /// Reads of written values that had been overwritten.
    pub read: u32,
}

/// How many reads of a session show a fault.
#[derive(Clone, Copy, Debug, PartialEq, Eq)]
pub struct SessionFaults {
    pub session: u32,
    pub counts: FaultCounts,
}

impl FaultCounts {
    /// How many show this kind; 0 for every kind except these three.
    pub fn of(self, kind: Kind) -> u32
        ensures { result ≡ count_of self kind }
    {
        match kind {
            Kind::ThinAirRead => self.thin_air,
            Kind::WriteCOInitRead => self.start,
            Kind::WriteCORead => self.read,
            Kind::CyclicCO | Kind::WriteHBInitRead | Kind::CyclicHB | Kind::CyclicCF => 0,
        }
    }

    /// How many show a fault.
    pub fn total(self) -> u64
        ensures { result ≡ self.thin_air + self.start + self.read }
    {
        u64::from(self.thin_air) + u64::from(self.start) + u64::from(self.read)
    }

    /// The counts if no read shows a fault.
    pub(crate) fn none() -> FaultCounts
        ensures { AreCounts [] result }
    {
        FaultCounts {
            thin_air: 0,
            start: 0,
            read: 0,
        }
    }

    /// Counts one more fault.
    pub(crate) fn add(&mut self, fault: Fault)
        requires { IsBelow self.old 4_294_967_295 }
        ensures { (all : List AFault) → AreCounts all self.old → AreCounts (all ++ fault ∷ []) self.new }
    {
        match fault {
            Fault::ThinAirRead { .. } => self.thin_air += 1,
            Fault::WriteCOInitRead { .. } => self.start += 1,
            Fault::WriteCORead { .. } => self.read += 1,
        }
    }
}

impl SessionFaults {
    /// A row with one fault.
    pub(crate) fn of(session: u32, fault: Fault) -> SessionFaults
        ensures session { result.session ≡ session }
        ensures counts { AreCounts (fault ∷ []) result.counts }
    {
        let mut counts = FaultCounts::none();
        counts.add(fault);
        SessionFaults { session, counts }
    }

    /// The row with one more fault.
    pub(crate) fn with(self, fault: Fault) -> SessionFaults
        requires { IsBelow self.counts 4_294_967_295 }
        ensures session { result.session ≡ self.session }
        ensures counts { (all : List AFault) → AreCounts all self.counts → AreCounts (all ++ fault ∷ []) result.counts }
    {
        let mut counts = self.counts;
        counts.add(fault);
        SessionFaults {
            session: self.session,
            counts,
        }
    }
}
