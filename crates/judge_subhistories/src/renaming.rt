//! Patterns of a part, in the operations of the whole. No contract says what they name: a pattern is checked as it was found.

use crate::places::Places;
use model_history::{History, OpId};
use model_objects::Memory;
use pattern_check::{Derivation, Line, Link, Links, Path, Pattern};
use std::alloc::{AllocError, Global};

/// A pattern of the history without some variables, with the operations as the whole history numbers them.
///
/// Fails for want of memory alone. O(n m + l) for n operations, m variables and a pattern of l operations.
pub fn pattern_in_whole(
    alloc: Global,
    history: &History<Memory>,
    variables: &[u32],
    pattern: &Pattern,
) -> Result<Pattern, AllocError> {
    renamed(alloc, &Places::without(alloc, history, variables)?, pattern)
}

/// A pattern of a part, with the operations as the whole numbers them.
///
/// Fails for want of memory alone. O(l) for a pattern of l operations and lines.
pub fn renamed(alloc: Global, places: &Places, pattern: &Pattern) -> Result<Pattern, AllocError> {
    match pattern {
        Pattern::CyclicCO(path) => Ok(Pattern::CyclicCO(renamed_path(alloc, places, path)?)),
        Pattern::ThinAirRead(read) => Ok(Pattern::ThinAirRead(places.in_whole(*read))),
        Pattern::WriteCOInitRead(path) => {
            Ok(Pattern::WriteCOInitRead(renamed_path(alloc, places, path)?))
        }
        Pattern::WriteCORead(first, second) => {
            let first = renamed_path(alloc, places, first)?;
            let second = renamed_path(alloc, places, second)?;
            Ok(Pattern::WriteCORead(first, second))
        }
        Pattern::WriteHBInitRead(op, derivation) => {
            let derivation = renamed_derivation(alloc, places, derivation)?;
            Ok(Pattern::WriteHBInitRead(places.in_whole(*op), derivation))
        }
        Pattern::CyclicHB(op, derivation) => {
            let derivation = renamed_derivation(alloc, places, derivation)?;
            Ok(Pattern::CyclicHB(places.in_whole(*op), derivation))
        }
        Pattern::CyclicCF(links) => Ok(Pattern::CyclicCF(renamed_links(alloc, places, links)?)),
    }
}

// A path in the operations of the whole.
fn renamed_path(alloc: Global, places: &Places, path: &Path) -> Result<Path, AllocError> {
    let mut ops: Vec<OpId> = Vec::new(alloc);
    for op in path.ops() {
        ops.push(places.in_whole(*op))?;
    }
    Ok(Path::of(ops))
}

// Links in the operations of the whole.
fn renamed_links(alloc: Global, places: &Places, links: &Links) -> Result<Links, AllocError> {
    let mut renamed = Vec::new(alloc);
    for link in links.links() {
        renamed.push(renamed_link(alloc, places, link)?)?;
    }
    Ok(Links::of(renamed))
}

// A link in the operations of the whole.
fn renamed_link(alloc: Global, places: &Places, link: &Link) -> Result<Link, AllocError> {
    match link {
        Link::Co(from, to) => Ok(Link::Co(places.in_whole(*from), places.in_whole(*to))),
        Link::Cf(path, to) => {
            let path = renamed_path(alloc, places, path)?;
            Ok(Link::Cf(path, places.in_whole(*to)))
        }
    }
}

// A derivation in the operations of the whole.
fn renamed_derivation(
    alloc: Global,
    places: &Places,
    derivation: &Derivation,
) -> Result<Derivation, AllocError> {
    let mut lines = Vec::new(alloc);
    for line in derivation.lines() {
        lines.push(renamed_line(alloc, places, line)?)?;
    }
    Ok(Derivation::of(lines))
}

// A line of a derivation in the operations of the whole.
fn renamed_line(alloc: Global, places: &Places, line: &Line) -> Result<Line, AllocError> {
    match line {
        Line::Co(first, second) => {
            let first = renamed_path(alloc, places, first)?;
            Ok(Line::Co(first, renamed_path(alloc, places, second)?))
        }
        Line::Tr(first, second) => Ok(Line::Tr(*first, *second)),
        Line::Rf(line, read) => Ok(Line::Rf(*line, places.in_whole(*read))),
    }
}
