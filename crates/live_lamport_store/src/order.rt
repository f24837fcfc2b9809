//! The updates of a replica of the store of Lamport's clocks, in the order of their stamps.

ghost use Rattle.std.specs.Prelude.{◌≡◌, map};
ghost use Rattle.live_lamport_store.specs.Stamps.{IsRising};
ghost use Rattle.live_replica.specs.Updates.{key};

use crate::LamportReplica;
use live_replica::UpdateOf;
use model_object_trait::SeqObject;

/// The updates that a replica has delivered and its own ones, in the order of their stamps, which its answers follow.
///
/// It is the total order of Lamport ("Time, clocks and the ordering of events in a distributed system", 1978): stamps rise,
/// sessions rise within one stamp, and numbers rise within one session, so that no two are alike. O(1).
pub fn delivered<O: SeqObject>(replica: &LamportReplica<O>) -> &[UpdateOf<O::Call>]
    ensures updates { result.now ≡ replica.now.taken }
    ensures rising { IsRising (map key result.now) }
{
    replica.delivered()
}
