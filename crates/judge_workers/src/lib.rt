//! Who does work that can be shared, the calling thread alone or workers, and how workers share it.
//!
//! It gives [`CallingThread`] and [`WorkerThreads`], for which crates above implement traits of their own, [`Workers`], a number
//! of workers from 1 to [`MAX_WORKERS`], and [`Gate`] with [`OpenGate`], where a test holds workers. [`Claims`] shares pieces of
//! work among threads of unequal speed: a thread that is done with one piece claims the next. [`unclaimed`] lists the pieces that
//! nobody claimed, for the thread that needs all of them. It uses model_history, for the name of an operation. Callers rest on
//! the contracts, and on the limit.
#![tactic(auto)]

mod claims;
mod count;
mod gate;
mod limit;
mod rest;
mod threads;

pub use claims::Claims;
pub use count::Workers;
pub use gate::{Gate, OpenGate};
pub use limit::MAX_WORKERS;
pub use rest::unclaimed;
pub use threads::{CallingThread, WorkerThreads};
