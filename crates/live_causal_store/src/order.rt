//! The updates of a replica of the causal store, in the order in which it took them in.

ghost use Rattle.std.specs.Prelude.{◌≡◌};
ghost use Rattle.live_replica.specs.Causality.{IsCausal};

use crate::CausalReplica;
use live_replica::{Delivery, UpdateOf};
use model_object_trait::SeqObject;

/// The updates that a replica has delivered and its own ones, in the order in which it took them in, which its answers follow.
///
/// With causal delivery this order respects causality (Ahamad, Neiger, Burns, Kohli and Hutto, "Causal memory", 1995): each
/// update is after the earlier ones of its session, and after all that its writer had delivered of sessions other than its
/// own and the replica's. O(1).
pub fn delivered<O: SeqObject>(replica: &CausalReplica<O>) -> &[UpdateOf<O::Call>]
    ensures updates { result.now ≡ replica.now.taken }
    ensures causal { replica.now.delivery ≡ Delivery.Causal → IsCausal replica.now.session result.now }
{
    replica.delivered()
}
