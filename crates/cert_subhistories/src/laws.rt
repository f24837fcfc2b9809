//! What parts of histories meet. The functions do nothing: what they ensure is the law. So the whole does not meet what a
//! part does not meet.

ghost use Rattle.std.specs.Prelude.{Bool, List, ℕ};
ghost use Rattle.model_objects.specs.declared.keyed.KeyedCall.{KeyedCall};
ghost use Rattle.model_history.specs.History.{HistoryValue};
ghost use Rattle.model_history.specs.declared.op_id.OpId.{OpId};
ghost use Rattle.order_memory.specs.Memory.{MemoryCall, MemoryHistory, IsDifferentiated};
ghost use Rattle.cert_check.specs.declared.criterion.Criterion.{Criterion};
ghost use Rattle.cert_check.specs.Criteria.{Meets};
ghost use Rattle.cert_subhistories.specs.Parts.{at_keys, part_by};
ghost use Rattle.cert_subhistories.specs.Sources.{KeepsSources};

use model_object_trait::SeqObject;
use model_objects::{Keyed, Memory};

/// The part of a keyed object's history at some keys meets each criterion that the history meets.
pub fn parts_at_keys_meet_what_the_whole_meets<O: SeqObject>()
    ensures { (h : HistoryValue (List (ℕ × O.Start)) (KeyedCall O.Call) O.Ret) (keys : ℕ → Bool) (criterion : Criterion)
        → Meets ⟦<Keyed<O> as SeqObject>⟧.answer h criterion
        → Meets ⟦<Keyed<O> as SeqObject>⟧.answer (part_by (at_keys keys) h) criterion }
{}

/// Where the values of a memory history are distinct, a part that keeps with each known read the write that it reads from
/// meets each criterion that the history meets.
pub fn parts_with_their_sources_meet_what_the_whole_meets()
    ensures { (h : MemoryHistory) (kept : OpId → MemoryCall → Bool) (criterion : Criterion) → IsDifferentiated h
        → KeepsSources kept h → Meets ⟦<Memory as SeqObject>⟧.answer h criterion
        → Meets ⟦<Memory as SeqObject>⟧.answer (part_by kept h) criterion }
{}
