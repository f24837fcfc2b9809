//! What holds of these certificates. The functions do nothing: what they ensure is the law.

ghost use Rattle.order_memory.specs.Memory.{MemoryHistory, memory_answer};
ghost use Rattle.order_memory.specs.MemoryHistories.{IsMemoryHistory};
ghost use Rattle.order_memory.specs.OverwrittenReads.{HasOverwrittenRead, HasOverwrittenStart};
ghost use Rattle.cert_check.specs.Certificates.{IsExplainedThroughout};
ghost use Rattle.cert_make_cc.specs.BySources.{IsBySources};

use cert_check::Certificate;

/// On distinct values, where no bad pattern against causal consistency is present, every piece of the certificate made by
/// sources explains its operation.
///
/// A cycle of the causal order or a read from thin air leaves no such certificate, so the law requires only that the two
/// other patterns are absent. It also holds if values are not distinct.
pub fn certificates_by_sources_explain()
    ensures { (h : MemoryHistory) (c : Certificate) → IsMemoryHistory h → ¬ HasOverwrittenStart h → ¬ HasOverwrittenRead h
        → IsBySources h c → IsExplainedThroughout memory_answer h c }
{}
