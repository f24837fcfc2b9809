//! For which criteria an order is known that explains every read of a log.

ghost use Rattle.std.specs.Prelude.{◌≡◌};
ghost use Rattle.cert_check.specs.declared.criterion.Criterion.{Criterion};
ghost use Rattle.show_log_names.specs.Witnesses.{witness_for};

use cert_check::Criterion;

/// What is known of an order that explains every read of a log, those too that the history leaves out by which it is judged.
#[derive(Clone, Copy, Debug, PartialEq, Eq)]
pub enum Witness {
    /// Nothing: that history does not meet the criterion, or it is not known whether it does.
    Unwanted,
    /// There is one.
    Found,
    /// None was found, and there may be one.
    Missing,
}

/// The same for each criterion.
#[derive(Clone, Copy, Debug, PartialEq, Eq)]
pub struct Witnesses {
    /// For causal consistency.
    pub cc: Witness,
    /// For causal memory.
    pub cm: Witness,
    /// For causal convergence.
    pub ccv: Witness,
}

impl Witnesses {
    /// Where no order is looked for.
    pub fn unwanted() -> Witnesses
        ensures causal_consistency { witness_for result Criterion.Cc ≡ Witness.Unwanted }
        ensures causal_memory { witness_for result Criterion.Cm ≡ Witness.Unwanted }
        ensures causal_convergence { witness_for result Criterion.Ccv ≡ Witness.Unwanted }
    {
        Witnesses {
            cc: Witness::Unwanted,
            cm: Witness::Unwanted,
            ccv: Witness::Unwanted,
        }
    }

    /// What is known for a criterion.
    pub fn of(self, criterion: Criterion) -> Witness
        ensures { result ≡ witness_for self criterion }
    {
        match criterion {
            Criterion::Cc => self.cc,
            Criterion::Cm => self.cm,
            Criterion::Ccv => self.ccv,
        }
    }

    /// Whether this is known for some criterion.
    pub fn has(self, witness: Witness) -> bool {
        self.cc == witness || self.cm == witness || self.ccv == witness
    }
}
