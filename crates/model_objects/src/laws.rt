//! What holds of the objects, beside the laws of every object.

ghost use Rattle.model_objects.specs.Counter.{StaysFull};
ghost use Rattle.model_objects.specs.Keyed.{DependsOnItsKey};

use crate::counter::Counter;
use crate::keyed::Keyed;
use model_object_trait::SeqObject;

/// An answer at a key depends only on the start at that key and on the calls with that key.
pub fn answer_depends_on_its_key<O: SeqObject>()
    ensures { DependsOnItsKey O.plain_start ⟦<Keyed<O> as SeqObject>⟧.answer }
{}

/// Once a counter answers the greatest `u64`, it answers the same after any further calls.
pub fn counter_stays_full()
    ensures { StaysFull ⟦<Counter as SeqObject>⟧.answer }
{}
