//! A gate that each thread passes before and after its work on an operation.

use model_history::OpId;

/// Each thread calls it for each operation that it reaches: before its work there, and after. Whoever passes the gate decides
/// what it does: a test holds threads here.
pub trait Gate: Sync {
    /// The operation is about to be called, or its piece to be checked.
    fn enter(&self, op: OpId);

    /// The operation was called, or its piece was checked.
    fn leave(&self, op: OpId);
}

/// A gate that does nothing.
#[derive(Clone, Copy, Debug)]
pub struct OpenGate;

impl Gate for OpenGate {
    fn enter(&self, _op: OpId) {}

    fn leave(&self, _op: OpId) {}
}
