//! The plan of a drive: when updates are delivered, how many seals are taken, and which client stops.

use live_replica::Delivery;

/// How the clients of a store are driven.
#[derive(Clone, Copy, Debug, PartialEq, Eq)]
pub struct DrivePlan {
    /// When a replica takes in what other clients send it.
    pub delivery: Delivery,
    /// How many seals are taken while clients run.
    pub seals: u8,
    /// The session whose client never ends its last call, if there is one.
    pub stop: Option<usize>,
}
