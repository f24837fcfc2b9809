//! Which criteria are expected to be met.

ghost use Rattle.std.specs.Prelude.{◌≡◌};
ghost use Rattle.app_orders.specs.Expected.{expecting_nothing};

/// The criteria that are expected to be met, if any are.
#[derive(Clone, Copy, Debug, PartialEq, Eq)]
pub struct Expected {
    /// Causal consistency.
    pub cc: bool,
    /// Causal memory.
    pub cm: bool,
    /// Causal convergence.
    pub ccv: bool,
}

impl Expected {
    /// Nothing is expected.
    pub fn nothing() -> Expected
        ensures { result ≡ expecting_nothing }
    {
        Expected {
            cc: false,
            cm: false,
            ccv: false,
        }
    }
}
