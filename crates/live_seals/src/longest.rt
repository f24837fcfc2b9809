//! The longest receipt of a lane: the one that covers most operations.

ghost use Rattle.std.specs.Prelude.{◌≡◌, ◌≤◌, ◌<◌, ◌+◌, length};
ghost use Rattle.live_seals.specs.Steps.Tables.{IsLongest};

use live_recorder::{Receipt, Recorded};

/// The receipt of a lane that covers most operations: how many it covers, and its place in the list.
#[derive(Clone, Copy)]
pub struct LongestReceipt {
    pub(crate) count: usize,
    pub(crate) at: usize,
}

/// The longest receipt of a lane; its count is 0 if there is none.
pub(crate) fn longest<O: Recorded>(receipts: &[Receipt<O>], lane: usize) -> LongestReceipt
    ensures { IsLongest receipts.now lane (length receipts.now) result }
{
    let mut best = LongestReceipt { count: 0, at: 0 };
    for j in 0..receipts.len() {
        best = longer(receipts, lane, best, j);
    }
    best
}

fn longer<O: Recorded>(
    receipts: &[Receipt<O>],
    lane: usize,
    best: LongestReceipt,
    j: usize,
) -> LongestReceipt
    requires place { j < length receipts.now }
    requires before { IsLongest receipts.now lane j best }
    ensures { IsLongest receipts.now lane (j + 1) result }
{
    let receipt = &receipts[j];
    if receipt.op().session_place() == lane && receipt.len() > best.count {
        return LongestReceipt {
            count: receipt.len(),
            at: j,
        };
    }
    best
}
