//! What was gathered of a kind that a long history shows.

ghost use Rattle.std.specs.Prelude.{◌≡◌, IsTrue};
ghost use Rattle.order_memory.specs.Memory.{memory_answer};
ghost use Rattle.cert_check.specs.declared.criterion.Criterion.{Criterion};
ghost use Rattle.cert_check.specs.Criteria.{Meets};
ghost use Rattle.pattern_check.specs.Kinds.{is_against};
ghost use Rattle.judge_cores.specs.Cores.{CoreValue};
ghost use Rattle.judge_cores.specs.declared.long_core.Gathered.TheVariants.{Core};

use judge_cores::Gathered;
use pattern_check::Kind;

/// A kind that a long history shows, and the operations that were gathered of it. A core does not meet the criteria that the kind is
/// against.
#[derive(Drop)]
pub(crate) struct Found {
    pub kind: Kind,
    pub gathered: Gathered,
    ghost excludes: { (core : CoreValue) (criterion : Criterion) → gathered ≡ Core core → IsTrue (is_against kind criterion)
        → ¬ Meets memory_answer core.history criterion },
}
