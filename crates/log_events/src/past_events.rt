//! The events that a log has taken. They exist only in proofs, and take no bytes.

ghost use Rattle.std.specs.Prelude.{◌≡◌, List, [], ◌∷◌, ◌++◌};
ghost use Rattle.std.specs.Borrow.{ftrue};
ghost use Rattle.log_events.specs.declared.event.Event.{Event as Happened};

use crate::Event;
use std::marker::Model;

/// A list of events that only clauses read.
#[derive(Drop)]
pub(crate) struct PastEvents {
    ghost events: { List Happened },
}

impl Model for PastEvents {
    ghost also_owns = { λ _. ftrue };
}

impl PastEvents {
    /// No events.
    pub(crate) fn new() -> PastEvents
        ensures { result.events ≡ [] }
    {
        PastEvents {}
    }

    /// The events, and then this one.
    #[inline(always)]
    pub(crate) fn then(&self, _event: &Event) -> PastEvents
        ensures { result.events ≡ self.now.events ++ _event.now ∷ [] }
    {
        PastEvents {}
    }
}
