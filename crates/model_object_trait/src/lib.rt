//! What a replicated object is: a deterministic object whose answer to a call is a function of its start and of the
//! calls before it.
//!
//! It gives [`SeqObject`] with its laws, and [`replay`], the state after some calls. It uses no other crate. How [`replay`] goes
//! through the calls may change: callers rest on the contracts alone. A change of the trait or its laws concerns every object.
#![tactic(auto)]

mod replaying;
mod seq_object;

pub use replaying::replay;
pub use seq_object::SeqObject;
