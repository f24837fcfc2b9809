//! Writes that overwrote what a read after them returned.

ghost use Rattle.std.specs.Prelude.{◌<◌, [], length};
ghost use Rattle.judge_memory.specs.Steps.{IsOrderBy};

use crate::asking::{source_of, variable_of};
use crate::searching::{Leg, Search};
use judge_columns::{Sight, advance, find_firsts, find_past_ends, look};
use judge_memory::{LongIndex, Part};
use std::alloc::{AllocError, Global};

/// The legs of ways in the causal order that show a read of a value that was overwritten. It takes the first
/// read that the writes of each session show, and returns the fewest legs of all sessions. Empty if no read shows it.
///
/// The order is one that [`judge_memory::order_causal`] gives. Fails for want of memory alone. O(n k) for n operations of k sessions.
pub(crate) fn least_overwriting(
    alloc: Global,
    index: &LongIndex,
    order: &[u32],
    wanted: Sight,
) -> Result<Vec<Leg>, AllocError>
    requires { IsOrderBy index.now.history [] order.now }
{
    let mut least: Vec<Leg> = Vec::new(alloc);
    for session in 0..index.sessions() {
        if !writes(index, session) {
            continue;
        }
        if let Some(overwriting) = first_overwriting(alloc, index, order, session, wanted)? {
            let legs = overwriting.legs(alloc, index)?;
            if least.is_empty() || legs.len() < least.len() {
                least = legs;
            }
        }
    }
    Ok(least)
}

/// A write that overwrote what a read after it returned.
#[derive(Clone, Copy, Debug)]
struct Overwriting {
    write: u32,
    read: u32,
}

impl Overwriting {
    /// The legs from what the read returned to the write, and from there to the read. A read of an initial value may come after a nearer
    /// write of its variable.
    fn legs(self, alloc: Global, index: &LongIndex) -> Result<Vec<Leg>, AllocError> {
        let search = Search::back_from(alloc, index, &[], &[self.read])?;
        match source_of(index, self.read) {
            Some(source) => {
                let mut legs = search.way_from(alloc, self.write)?;
                let above = Search::back_from(alloc, index, &[], &[self.write])?;
                legs.extend_from_slice(&above.way_from(alloc, source)?)?;
                Ok(legs)
            }
            None => {
                let nearest = variable_of(index, self.read).and_then(
                    |variable| search.nearest_write(index, variable),
                );
                search.way_from(alloc, nearest.unwrap_or(self.write))
            }
        }
    }
}

/// The first read that a session's writes show as wanted, with the session's last write of its variable in its past.
fn first_overwriting(
    alloc: Global,
    index: &LongIndex,
    order: &[u32],
    session: u32,
    wanted: Sight,
) -> Result<Option<Overwriting>, AllocError>
    requires session { session < length index.now.history.1 }
    requires order { IsOrderBy index.now.history [] order.now }
{
    let operations = index.operations() as usize;
    let mut ends = vec![in alloc; 0; operations]?;
    let mut firsts = vec![in alloc; 0; operations]?;
    find_past_ends(index, order, session, &mut ends);
    find_firsts(index, order, session, &mut firsts);
    let mut last = vec![in alloc; 0; index.variables() as usize]?;
    let start = index.start(session);
    let mut at = start;
    for read in 0..index.operations() {
        let end = ends[read as usize].max(start).min(index.operations());
        advance(index, start, at, end, &mut last);
        at = end;
        if look(index, &ends, &firsts, &last, start, read) == wanted {
            let after = last[index.variable(read) as usize];
            let write = after.saturating_sub(1);
            return Ok(Some(Overwriting { write, read }));
        }
    }
    Ok(None)
}

/// Whether a session writes something.
fn writes(index: &LongIndex, session: u32) -> bool
    requires { session < length index.now.history.1 }
{
    for operation in index.start(session)..index.end(session) {
        if let Part::Write = index.part(operation) {
            return true;
        }
    }
    false
}
