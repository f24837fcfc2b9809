//! What the makers of certificates share. Nobody trusts them: only the pieces of a certificate make it credible.
//!
//! [`make_by_advice`] makes one from a store's advice, [`make_by_program_order`] one without, [`make_as_advised`] chooses, and
//! [`is_advised`] and [`advice_decides`] say when advice counts. It uses order_causal, order_memory and cert_check.
//! How a certificate is made may change; its contract says which past, schedules or list it has.
#![tactic(auto)]

mod advice;
mod by_advice;
mod by_order;
mod by_program_order;
mod by_stamp;
mod heard;
mod program_schedules;
mod schedule;

pub use advice::{advice_decides, is_advised};
pub use by_advice::{make_as_advised, make_by_advice};
pub use by_program_order::make_by_program_order;
