//! How a store is driven.

use judge_workers::Workers;
use live_replica::Delivery;

/// The most seals that are taken while clients run.
pub const MAX_SEALS: u8 = 8;

/// A store that the program can drive.
#[derive(Clone, Copy, Debug, PartialEq, Eq)]
pub enum Store {
    /// Each replica keeps updates in the order in which it takes them in.
    Causal,
    /// Each replica keeps updates in the order of their stamps, which logical clocks give.
    Lamport,
}

/// How a store is driven, and its histories are judged.
#[derive(Clone, Copy, Debug, PartialEq, Eq)]
pub struct Drive {
    /// The store.
    pub store: Store,
    /// When its replicas take in what the others send them.
    pub delivery: Delivery,
    /// How many histories are sealed while clients run; one more is sealed at the end.
    pub seals: u8,
    /// How many workers check certificates.
    pub workers: Workers,
    /// The session whose client never ends its last call, if there is one.
    pub stop: Option<usize>,
}
