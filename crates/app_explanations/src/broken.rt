//! Which guarantee a stale read breaks, by the path that its pattern shows.

ghost use Rattle.std.specs.Prelude.{◌≡◌, ◌↔◌, false, IfOk, IsTrue};
ghost use Rattle.model_history.specs.History.{Precedes};
ghost use Rattle.app_explanations.specs.BrokenGuarantees.{AreSteps, IsBroken, IsBrokenBy, StaysAs, guarantee_of, links_after};

use crate::clients::Clients;
use json_histories::OpId;
use pattern_check::Pattern;
use show_words::{Guarantee, Names};
use std::alloc::{AllocError, Global};

/// The guarantee that the stale read of a pattern breaks. None exactly where the pattern shows no stale read.
///
/// Fails for want of memory alone. O(n) for a path of n operations.
pub(crate) fn broken_by<N: Names>(
    alloc: Global,
    names: &N,
    clients: Clients,
    pattern: &Pattern,
) -> Result<Option<Guarantee>, AllocError>
    ensures { IfOk result (IsBrokenBy clients pattern.now) }
{
    match pattern {
        Pattern::WriteCOInitRead(path) | Pattern::WriteCORead(_, path) => {
            Ok(Some(broken_along(alloc, names, clients, path.ops())?))
        }
        Pattern::CyclicCO(_)
        | Pattern::ThinAirRead(_)
        | Pattern::WriteHBInitRead(_, _)
        | Pattern::CyclicHB(_, _)
        | Pattern::CyclicCF(_) => Ok(None),
    }
}

// The guarantee that a read breaks which missed the write from which this path leads to it.
fn broken_along<N: Names>(
    alloc: Global,
    names: &N,
    clients: Clients,
    path: &[OpId],
) -> Result<Guarantee, AllocError>
    ensures { IfOk result (IsBroken clients path.now) }
{
    let steps = steps_of(alloc, names, clients, path)?;
    Ok(guarantee_of_links(links_of(&steps)))
}

// Which steps of a path stay with one client.
fn steps_of<N: Names>(
    alloc: Global,
    names: &N,
    clients: Clients,
    path: &[OpId],
) -> Result<Vec<bool>, AllocError>
    ensures { IfOk result (λ steps. AreSteps clients path.now steps.items) }
{
    let mut steps = Vec::new(alloc);
    for i in 1..path.len() {
        steps.push(stays(names, clients, path[i - 1], path[i]))?;
    }
    Ok(steps)
}

// Whether the step from one operation to another stays with one client.
fn stays<N: Names>(names: &N, clients: Clients, from: OpId, to: OpId) -> bool
    ensures { StaysAs clients from to result }
{
    match clients {
        Clients::Sessions => precedes(from, to),
        Clients::Named => precedes(from, to) || (to.index == 0 && names.goes_on(from, to)),
    }
}

// Whether an operation comes before another in its session.
fn precedes(from: OpId, to: OpId) -> bool
    ensures { IsTrue result ↔ Precedes from to }
{
    from.session == to.session && from.index < to.index
}

// How many links steps make.
fn links_of(steps: &[bool]) -> usize
    ensures { result ≡ links_after false steps.now }
{
    let mut links: usize = 0;
    let mut before = false;
    for stays in steps {
        if !(before && *stays) {
            links += 1;
        }
        before = *stays;
    }
    links
}

// The guarantee by which what so many links lead to was due.
fn guarantee_of_links(links: usize) -> Guarantee
    ensures { result ≡ guarantee_of links }
{
    match links {
        0 | 1 => Guarantee::ReadYourWrites,
        2 => Guarantee::MonotonicReads,
        3 => Guarantee::MonotonicWrites,
        4 => Guarantee::WritesFollowReads,
        _ => Guarantee::CausalOrder,
    }
}
