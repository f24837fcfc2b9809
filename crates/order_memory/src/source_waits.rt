//! Operations that wait for their sources.

ghost use Rattle.std.specs.Prelude.{◌+◌, ◌<◌, length, IfOk};
ghost use Rattle.order_causal.specs.Orders.{op as operation};
ghost use Rattle.order_memory.specs.Sources.{AreListed, HasSource};
ghost use Rattle.order_memory.specs.Steps.SourceWaits.{IsSourceBefore};
ghost use Rattle.order_causal.specs.Waits.{AreAlike, AreWaitsFor};

use crate::placing::Sources;
use model_history::{History, OpId};
use model_object_trait::SeqObject;
use order_causal::Waits;
use std::alloc::{AllocError, Global};

/// Each operation waits for its source.
///
/// The sources are those of the operations of the history. Fails for want of memory alone. O(n k) for n operations of k
/// sessions.
pub fn waits_for_sources<O: SeqObject>(
    alloc: Global,
    h: &History<O>,
    sources: &Sources,
) -> Result<Waits, AllocError>
    requires alike { AreAlike sources.now h.now.1 }
    requires listed { AreListed sources.now }
    ensures alike { IfOk result (λ waits. AreAlike waits h.now.1) }
    ensures exact { IfOk result (AreWaitsFor (λ w o. HasSource sources.now o w)) }
{
    let mut waits = Waits::of(alloc, h)?;
    for session in 0..sources.len() {
        add_sources(sources, session, &mut waits);
    }
    Ok(waits)
}

/// Lets the operations of a session wait for their sources.
fn add_sources(sources: &Sources, session: usize, waits: &mut Waits)
    requires exists { session < length sources.now }
    requires listed { AreListed sources.now }
    requires alike { AreAlike waits.old sources.now }
    requires so_far { AreWaitsFor (IsSourceBefore sources.now (operation session 0)) waits.old }
    ensures alike { AreAlike waits.new sources.now }
    ensures so_far { AreWaitsFor (IsSourceBefore sources.now (operation (session + 1) 0)) waits.new }
{
    let of_session = sources.get(session);
    for index in 0..of_session.len() {
        if let Some(source) = of_session[index] {
            let op = OpId::at(session, index);
            waits.add(op, source);
        }
    }
}
