//! Operations in order.

use model_history::OpId;

/// Puts operations in order, each once. O(n log n) for n operations.
pub(crate) fn sort_once(ops: &mut Vec<OpId>) {
    ops.sort_unstable();
    ops.dedup();
}
