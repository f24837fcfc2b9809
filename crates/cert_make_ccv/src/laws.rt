//! What holds of these certificates. The functions do nothing: what they ensure is the law.

ghost use Rattle.order_memory.specs.Memory.{MemoryHistory, memory_answer};
ghost use Rattle.order_memory.specs.MemoryHistories.{IsMemoryHistory};
ghost use Rattle.order_memory.specs.OverwrittenReads.{HasOverwrittenStart};
ghost use Rattle.cert_check.specs.Certificates.{HasShapeOf, IsExplainedThroughout};
ghost use Rattle.cert_make_ccv.specs.ByConflicts.{IsByConflicts};

use cert_check::Certificate;

/// On distinct values, where no bad pattern against causal convergence is present, every piece of the certificate made by
/// conflicts explains its operation.
///
/// Two of these patterns leave no such certificate: a cycle of the causal order and its conflicts, and a read from thin air.
/// An overwritten read makes such a cycle. So the law assumes the absence of reads of overwritten initial values alone. It also
/// holds of values that are not distinct.
pub fn certificates_by_conflicts_explain()
    ensures { (h : MemoryHistory) (c : Certificate) → IsMemoryHistory h → ¬ HasOverwrittenStart h → HasShapeOf h c
        → IsByConflicts h c → IsExplainedThroughout memory_answer h c }
{}
