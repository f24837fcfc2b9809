//! Certificates of causal consistency.
//!
//! [`make`] makes one for any object, from what a store reported; [`make_memory`] and [`make_indexed`] for a memory history, by
//! the sources of its reads unless advice decides. [`laws`] says when these explain. It uses cert_make and order_memory.
//! How a certificate is made may change: callers rest on the contracts alone, and nobody trusts advice.
#![tactic(auto)]

mod as_advised;
mod by_sources;
mod cutting;
pub mod laws;
mod schedule;
mod whole_walk;

pub use as_advised::{make, make_indexed, make_memory};
