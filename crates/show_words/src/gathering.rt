//! The steps of patterns.

use crate::derivation_steps::push_derivation;
use crate::derived_pairs::ends_of;
use crate::step::Step;
use crate::steps::Steps;
use model_history::{History, OpId};
use model_objects::Memory;
use pattern_check::{Link, Links, Pair, Path, Pattern};
use std::alloc::{AllocError, Global};

/// What a text says of a pattern.
#[derive(Drop)]
pub(crate) struct Outline {
    pub steps: Steps,
    /// Where the steps begin and where they end, if that can be said.
    pub ends: Option<Pair>,
}

/// The steps that show a pattern, and where they begin and end.
///
/// Fails for want of memory alone. O(m + l) for a pattern of m operations and l lines, and for a derivation the cost of
/// [`push_derivation`].
pub(crate) fn outline_of(
    alloc: Global,
    h: &History<Memory>,
    pattern: &Pattern,
) -> Result<Outline, AllocError> {
    let mut steps = Steps::none(alloc);
    let ends = push_pattern(alloc, &mut steps, h, pattern)?;
    Ok(Outline { steps, ends })
}

// The steps that show a pattern. It gives where they begin and end.
fn push_pattern(
    alloc: Global,
    steps: &mut Steps,
    h: &History<Memory>,
    pattern: &Pattern,
) -> Result<Option<Pair>, AllocError> {
    match pattern {
        Pattern::CyclicCO(path) | Pattern::WriteCOInitRead(path) => {
            steps.follow(path)?;
            Ok(ends_of(path))
        }
        Pattern::ThinAirRead(read) => Ok(Some((*read, *read))),
        Pattern::WriteCORead(first, second) => push_overwritten(steps, first, second),
        Pattern::WriteHBInitRead(op, derivation) | Pattern::CyclicHB(op, derivation) => {
            push_derivation(alloc, steps, h, *op, derivation)
        }
        Pattern::CyclicCF(links) => push_links(steps, links),
    }
}

// The steps from a write to another and from there to a read that reads from the first. It gives the other write and the read.
fn push_overwritten(
    steps: &mut Steps,
    first: &Path,
    second: &Path,
) -> Result<Option<Pair>, AllocError> {
    steps.follow(first)?;
    steps.follow(second)?;
    match (ends_of(first), ends_of(second)) {
        (Some((write, other)), Some((_, read))) => {
            steps.push(Step::ReadsFrom(write, read))?;
            Ok(Some((other, read)))
        }
        _ => Ok(None),
    }
}

// The steps of a cycle of links. It gives where the cycle begins.
fn push_links(steps: &mut Steps, links: &Links) -> Result<Option<Pair>, AllocError> {
    for link in links.links() {
        push_link(steps, link)?;
    }
    Ok(begin_of(links))
}

// Where a cycle of links begins, twice.
fn begin_of(links: &Links) -> Option<Pair> {
    let begin: OpId = links.links().first()?.begin()?;
    Some((begin, begin))
}

// The step of an edge, or those of a conflict with what shows it.
fn push_link(steps: &mut Steps, link: &Link) -> Result<(), AllocError> {
    match link {
        Link::Co(from, to) => steps.push(Step::between(*from, *to)),
        Link::Cf(path, other) => {
            steps.lead(path)?;
            match ends_of(path) {
                Some((write, read)) => {
                    steps.push_two(
                        Step::ReadsFrom(*other, read),
                        Step::Yields(write, *other, read),
                    )
                }
                None => Ok(()),
            }
        }
    }
}
