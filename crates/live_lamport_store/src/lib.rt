//! The store of Lamport's clocks (Lamport, "Time, clocks and the ordering of events in a distributed system", 1978): answers
//! follow the stamps of updates, then their sessions, then their numbers.
//!
//! It gives [`LamportReplica`], its order [`ByStamp`], [`delivered`], and the names of replica that callers need. It uses
//! model_object_trait and live_replica.
//! How an update finds its place may change: callers rest on the contracts alone.
#![tactic(auto)]

mod by_stamp;
mod order;

pub use by_stamp::ByStamp;
pub use live_replica::{Acted, ActedOf, Delivery, Replica, ReplicaError, Update, UpdateOf};
pub use order::delivered;

/// A replica of the store of Lamport's clocks.
pub type LamportReplica<O> = Replica<O, ByStamp>;
