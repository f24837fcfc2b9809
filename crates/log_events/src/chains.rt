//! The calls of each client, each linked to the next.

ghost use Rattle.std.specs.Prelude.{◌≡◌, ◌<◌, ◌≤◌, ◌^◌, ◌==◌, All, IfOk, OnOk, filter, length, vec_len};
ghost use Rattle.log_events.specs.Steps.Chains.{AreChains};

use crate::logged_call::LoggedCall;
use std::alloc::{AllocError, Global};

/// Links: one more than the number of a call, or 0.
#[derive(Drop)]
pub(crate) struct Chains {
    /// For each client the link to its first call.
    pub(crate) first: Vec<u32>,
    /// For each call the link to its client's next.
    pub(crate) next: Vec<u32>,
}

/// The chains of some calls.
///
/// Fails for want of memory alone. O(n) for n calls and clients.
pub(crate) fn chains_of(
    alloc: Global,
    calls: &[LoggedCall],
    clients: usize,
) -> Result<Chains, AllocError>
    requires few { length calls.now < 2 ^ 32 }
    requires known { All (λ a. a.client < clients) calls.now }
    ensures { IfOk result (λ chains. AreChains calls.now clients chains.first.items chains.next.items) }
{
    let mut first = vec![in alloc; 0; clients]?;
    let mut next = vec![in alloc; 0; calls.len()]?;
    for number in (0..calls.len()).rev() {
        let client = calls[number].client() as usize;
        next[number] = first[client];
        first[client] = number as u32 + 1;
    }
    Ok(Chains { first, next })
}

impl Chains {
    /// Puts the calls of a client into `found`, in order, in place of what it has.
    ///
    /// Fails for want of memory alone. O(k) for k calls of the client.
    pub(crate) fn collect(
        &self,
        calls: &[LoggedCall],
        client: usize,
        found: &mut Vec<LoggedCall>,
    ) -> Result<(), AllocError>
        requires chains { AreChains calls.now (vec_len self.now.first) self.now.first.items self.now.next.items }
        requires exists { client < vec_len self.now.first }
        ensures { OnOk result (found.new.items ≡ filter (λ a. a.client == client) calls.now) }
    {
        found.clear();
        let mut link = self.first[client];
        while link != 0 {
            let number = link as usize - 1;
            found.push(calls[number])?;
            link = self.next[number];
        }
        Ok(())
    }
}
