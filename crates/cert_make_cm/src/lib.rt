//! Certificates of causal memory.
//!
//! [`make`] makes one for any object, from what a store reported; [`make_memory`] and [`make_indexed`] for a memory history, by
//! its happened-before relations unless advice decides. [`laws`] says when these explain. It uses cert_make and order_memory.
//! How a certificate is made may change: callers rest on the contracts alone, and nobody trusts advice.
#![tactic(auto)]

mod as_advised;
mod by_happened_before;
pub mod laws;
mod turns;

pub use as_advised::{make, make_indexed, make_memory};
