//! A recorder: each session writes its calls and their returns into cells that are set once.
//!
//! It gives [`new_recorder`], which makes [`Lanes`] and a [`Session`] for each [`Lane`], and the notes and each [`Receipt`] that
//! show what is recorded. It uses model_object_trait, model_history, once_cell and thiserror. How a lane keeps its cells and a session its
//! notes may change: callers rest on the contracts alone.
#![tactic(auto)]

mod lane;
mod lanes;
mod note_copy;
mod note_list;
mod pending;
mod receipt;
mod record_error;
mod recorded;
mod return_record;
mod session;

pub use lane::Lane;
pub use lanes::{Lanes, new_recorder};
pub use note_copy::told;
pub use note_list::NoteList;
pub use receipt::Receipt;
pub use record_error::RecordError;
pub use recorded::Recorded;
pub use return_record::ReturnRecord;
pub use session::Session;
