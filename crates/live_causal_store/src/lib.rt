//! The causal store (Ahamad, Neiger, Burns, Kohli and Hutto, "Causal memory", 1995): answers follow the order in which updates
//! were delivered, and with causal delivery this order respects causality.
//!
//! It gives [`CausalReplica`], its order [`AsDelivered`], [`delivered`], and the names of replica that callers need. It uses
//! model_object_trait and live_replica.
//! How an update finds its place may change: callers rest on the contracts alone.
#![tactic(auto)]

mod as_delivered;
mod order;

pub use as_delivered::AsDelivered;
pub use live_replica::{Acted, ActedOf, Delivery, Replica, ReplicaError, Update, UpdateOf};
pub use order::delivered;

/// A replica of the causal store.
pub type CausalReplica<O> = Replica<O, AsDelivered>;
