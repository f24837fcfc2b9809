//! Copies of patterns. Each fails for want of memory alone, and takes O(n) for n operations and lines.

ghost use Rattle.std.specs.Prelude.{◌≡◌, IfOk};

use crate::derivation::{Derivation, Line};
use crate::link::{Link, Links};
use crate::path::Path;
use crate::pattern::Pattern;
use std::alloc::{AllocError, Global};

/// A type whose lists are copied item by item.
trait Copied: Drop + Sized {
    /// An equal item.
    fn copy(&self, alloc: Global) -> Result<Self, AllocError>
        ensures { IfOk result (λ copy. copy ≡ self.now) };
}

/// An equal list.
fn copy_list<T: Copied>(alloc: Global, items: &[T]) -> Result<Vec<T>, AllocError>
    ensures { IfOk result (λ copies. copies.items ≡ items.now) }
{
    let mut copies = Vec::new(alloc);
    for item in items {
        copies.push(item.copy(alloc)?)?;
    }
    Ok(copies)
}

impl Path {
    /// An equal path.
    pub fn copy(&self, alloc: Global) -> Result<Path, AllocError>
        ensures { IfOk result (λ copy. copy ≡ self.now) }
    {
        Ok(Path::of(Vec::from_slice(alloc, self.ops())?))
    }
}

impl Copied for Line {
    fn copy(&self, alloc: Global) -> Result<Line, AllocError> {
        match self {
            Line::Co(first, second) => Ok(Line::Co(first.copy(alloc)?, second.copy(alloc)?)),
            Line::Tr(first, second) => Ok(Line::Tr(*first, *second)),
            Line::Rf(number, write) => Ok(Line::Rf(*number, *write)),
        }
    }
}

impl Derivation {
    /// An equal derivation.
    pub fn copy(&self, alloc: Global) -> Result<Derivation, AllocError>
        ensures { IfOk result (λ copy. copy ≡ self.now) }
    {
        Ok(Derivation::of(copy_list(alloc, self.lines())?))
    }
}

impl Copied for Link {
    fn copy(&self, alloc: Global) -> Result<Link, AllocError> {
        match self {
            Link::Co(first, second) => Ok(Link::Co(*first, *second)),
            Link::Cf(path, write) => Ok(Link::Cf(path.copy(alloc)?, *write)),
        }
    }
}

impl Links {
    /// Equal links.
    pub fn copy(&self, alloc: Global) -> Result<Links, AllocError>
        ensures { IfOk result (λ copy. copy ≡ self.now) }
    {
        Ok(Links::of(copy_list(alloc, self.links())?))
    }
}

impl Pattern {
    /// An equal pattern.
    pub fn copy(&self, alloc: Global) -> Result<Pattern, AllocError>
        ensures { IfOk result (λ copy. copy ≡ self.now) }
    {
        match self {
            Pattern::CyclicCO(path) => Ok(Pattern::CyclicCO(path.copy(alloc)?)),
            Pattern::ThinAirRead(read) => Ok(Pattern::ThinAirRead(*read)),
            Pattern::WriteCOInitRead(path) => Ok(Pattern::WriteCOInitRead(path.copy(alloc)?)),
            Pattern::WriteCORead(first, second) => {
                let first = first.copy(alloc)?;
                Ok(Pattern::WriteCORead(first, second.copy(alloc)?))
            }
            Pattern::WriteHBInitRead(op, lines) => {
                Ok(Pattern::WriteHBInitRead(*op, lines.copy(alloc)?))
            }
            Pattern::CyclicHB(op, lines) => Ok(Pattern::CyclicHB(*op, lines.copy(alloc)?)),
            Pattern::CyclicCF(links) => Ok(Pattern::CyclicCF(links.copy(alloc)?)),
        }
    }
}
