//! Cycles of links.

ghost use Rattle.std.specs.Prelude.{◌↔◌, All, IsTrue};
ghost use Rattle.pattern_check.specs.Paths.{AreClosed, AreJoined, AreJoinedInTurn, IsConflict, IsCycle, IsLink};

use crate::edges::{are_rival_writes, is_edge, reads_from};
use crate::known_memory::KnownMemory;
use crate::link::Link;
use crate::path::Path;
use crate::routes::ends_of;
use model_history::OpId;

/// Whether there is at least one link and these links are a cycle of the history.
///
/// For each operation of the links it asks for at most a few entries and a source.
pub fn is_cycle<M: KnownMemory>(h: &M, links: &[Link]) -> bool
    ensures { IsTrue result ↔ IsCycle (M.history h.now) links.now }
{
    are_links(h, links) && are_joined_in_turn(links) && are_closed(links)
}

/// Whether each of these is a link of the history.
fn are_links<M: KnownMemory>(h: &M, links: &[Link]) -> bool
    ensures { IsTrue result ↔ All (IsLink (M.history h.now)) links.now }
{
    links.iter().all(|link| is_link(h, link))
}

/// Whether each link begins where the one before ends.
fn are_joined_in_turn(links: &[Link]) -> bool
    ensures { IsTrue result ↔ AreJoinedInTurn links.now }
{
    for i in 1..links.len() {
        if !are_joined(&links[i - 1], &links[i]) {
            return false;
        }
    }
    true
}

/// Whether there is a link, and the first begins where the last ends.
fn are_closed(links: &[Link]) -> bool
    ensures { IsTrue result ↔ AreClosed links.now }
{
    let (Some(last), Some(first)) = (links.last(), links.first()) else {
        return false;
    };
    are_joined(last, first)
}

/// Whether the second link begins where the first ends.
fn are_joined(before: &Link, after: &Link) -> bool
    ensures { IsTrue result ↔ AreJoined before.now after.now }
{
    let Some(begin) = after.begin() else {
        return false;
    };
    begin == before.end()
}

/// Whether a link is one of the history.
fn is_link<M: KnownMemory>(h: &M, link: &Link) -> bool
    ensures { IsTrue result ↔ IsLink (M.history h.now) link.now }
{
    match link {
        Link::Co(a, b) => is_edge(h, *a, *b),
        Link::Cf(path, rival) => is_conflict(h, path, *rival),
    }
}

/// Whether the path goes from a write to a read of another write of its variable, which is the operation.
fn is_conflict<M: KnownMemory>(h: &M, path: &Path, rival: OpId) -> bool
    ensures { IsTrue result ↔ IsConflict (M.history h.now) path.now rival }
{
    let Some(ends) = ends_of(h, path) else {
        return false;
    };
    reads_from(h, rival, ends.1) && are_rival_writes(h, ends.0, rival)
}
