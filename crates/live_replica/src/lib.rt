//! What the replicas of the stores share: updates, the order of those that were delivered, and the object that answers.
//!
//! It gives [`Replica`], with [`Acted`], [`Update`], [`Delivery`] and [`ReplicaError`], and [`UpdateOrder`], which a store
//! implements. It uses model_object_trait, model_history and thiserror.
//! How updates are held and when states are copied may change: callers rest on the contracts alone.
#![tactic(auto)]

mod acted;
mod checkpoint;
mod delivery;
mod follower;
mod replica;
mod replica_error;
mod taken;
mod update;
mod update_log;
mod update_order;

pub use acted::{Acted, ActedOf};
pub use delivery::Delivery;
pub use replica::Replica;
pub use replica_error::ReplicaError;
pub use update::{Update, UpdateOf};
pub use update_order::UpdateOrder;
