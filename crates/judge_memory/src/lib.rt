//! Memory histories of any number of sessions and operations: the history, its index, and orders of its operations.
//!
//! - [`LongHistory`] is the history. `specs/` numbers its operations and defines the steps of the causal order.
//! - [`LongIndex`] has, of a history with distinct values, the session, the variable and the [`Part`] of each operation, and joins a known
//!   read with its source, in arrays by number.
//! - [`causal_order`] has each operation after those that are causally before it; [`order`] also keeps to given edges. Where
//!   there is no such order, some operation is before itself.
//!
//! It uses order_memory, whose definitions it takes. Readers, columns, session orders and the decision use it.
#![tactic(auto)]

mod guesses;
mod limits;
mod long_history;
mod long_index;
mod part;
mod reads;
mod rounds;
mod sessions;
mod sources;
mod variables;
mod writes;

pub use limits::MAX_NUMBERS;
pub use long_history::{LongEntry, LongHistory};
pub use long_index::LongIndex;
pub use part::Part;
pub use rounds::{causal_order, order};
