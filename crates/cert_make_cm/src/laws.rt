//! What holds of these certificates. The functions do nothing: what they ensure is the law.

ghost use Rattle.order_memory.specs.HappenedBeforePatterns.{HasHBCycle, HasStartOverwrittenInHB};
ghost use Rattle.order_memory.specs.Memory.{MemoryHistory, memory_answer, IsDifferentiated};
ghost use Rattle.order_memory.specs.MemoryHistories.{IsMemoryHistory};
ghost use Rattle.cert_check.specs.Certificates.{IsExplainedThroughout};
ghost use Rattle.cert_make_cm.specs.ByTurns.{IsByTurns};

use cert_check::Certificate;

/// On distinct values, where no bad pattern against causal memory is present, every piece of the certificate made by turns
/// explains its operation and what is before it in program order.
///
/// Its vectors count the order of program order and sources, and the schedule of each operation goes by turns of vectors that
/// count exactly its happened-before relation. The law assumes the absence of only two of these patterns, those of
/// happened-before. A cycle of the causal order and a read from thin air leave no such certificate, and the absence of the others
/// is not needed.
pub fn certificates_by_turns_explain()
    ensures { (h : MemoryHistory) (c : Certificate) → IsMemoryHistory h → IsDifferentiated h → ¬ HasHBCycle h → ¬ HasStartOverwrittenInHB h
        → IsByTurns h c → IsExplainedThroughout memory_answer h c }
{}
