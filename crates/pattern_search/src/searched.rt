//! Results of searches of happened-before relations.

ghost use Rattle.std.specs.Prelude.{◌≡◌, ◌↔◌, IsTrue};
ghost use Rattle.pattern_search.specs.Searches.{HasPattern, either};

use pattern_check::Pattern;

/// The result of a search of happened-before relations for one kind.
#[derive(Debug, Drop)]
pub enum Searched {
    /// A bad pattern of the kind.
    Pattern(Pattern),
    /// The kind is present, but a derivation of it might have more than 100,000 lines, and none was made.
    Present,
    /// Some relation was not searched, and the others do not show the kind.
    Open,
    /// The kind is not present.
    Nothing,
}

impl Searched {
    /// Combines two searches for a kind. The result is the first pattern, or else that the kind is present if one of them says so.
    /// It is nothing if both are nothing.
    pub(crate) fn or(self, other: Searched) -> Searched
        ensures { result ≡ either self other }
    {
        match self {
            Searched::Pattern(pattern) => Searched::Pattern(pattern),
            Searched::Present => match other {
                Searched::Pattern(pattern) => Searched::Pattern(pattern),
                _ => Searched::Present,
            },
            Searched::Open => match other {
                Searched::Nothing => Searched::Open,
                found => found,
            },
            Searched::Nothing => other,
        }
    }

    /// Whether it is a pattern.
    pub(crate) fn is_pattern(&self) -> bool
        ensures { IsTrue result ↔ HasPattern self.now }
    {
        match self {
            Searched::Pattern(_) => true,
            Searched::Present | Searched::Open | Searched::Nothing => false,
        }
    }
}

/// The result of a search of happened-before relations, for each kind that rests on them.
#[derive(Debug, Drop)]
pub struct SearchedKinds {
    /// For a read of the initial value after a write (`WriteHBInitRead`).
    pub starts: Searched,
    /// For an operation before itself (`CyclicHB`). If `starts` is a pattern, this says nothing: the search ends there.
    pub cycles: Searched,
}
