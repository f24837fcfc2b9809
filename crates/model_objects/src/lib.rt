//! The objects whose histories are judged, each with its answer over plain lists of calls.
//!
//! - [`Register`]: a read answers the value that was written last, or the start.
//! - [`Counter`]: a get answers the number of increments, at most the greatest `u64`.
//! - [`AddRemoveSet`]: a has answers whether the last add or remove of the element is an add.
//! - [`Queue`]: a pop answers the first of the items that the earlier calls left, or `None`.
//! - [`Keyed`]: one such object for each key.
//!
//! It gives these with their calls and returns, [`Table`] for starts, and [`laws`]. It uses model_object_trait. How an object keeps its
//! state may change: callers rest on the contracts alone.
#![tactic(auto)]

mod add_remove_set;
mod counter;
mod keyed;
pub mod laws;
mod queue;
mod register;
mod table;

pub use add_remove_set::{AddRemoveSet, SetCall, SetRet};
pub use counter::{Counter, CounterCall, CounterRet};
pub use keyed::{Keyed, KeyedCall};
pub use queue::{Queue, QueueCall, QueueRet};
pub use register::{Register, RegisterCall, RegisterRet};
pub use table::{MAX_ENTRIES, Table};

/// A memory: a register for each variable.
pub type Memory = Keyed<Register>;

/// A counter for each key.
pub type Counters = Keyed<Counter>;

/// A set for each key.
pub type Sets = Keyed<AddRemoveSet>;

/// A queue for each key.
pub type Queues = Keyed<Queue>;
