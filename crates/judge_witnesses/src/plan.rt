//! What a walk prefers where a known read can have seen several writes.

/// Which writes outside the past of a read are preferred.
#[derive(Clone, Copy, Debug, PartialEq, Eq)]
pub(crate) enum Preference {
    /// The one whose past adds least.
    Least,
    /// The one that was walked last.
    Latest,
}

/// What a walk prefers.
#[derive(Clone, Copy, Debug, PartialEq, Eq)]
pub(crate) struct Plan {
    /// What the session saw or wrote last at the variable is preferred to all else, and a write in the past to one outside it.
    pub(crate) stays: bool,
    /// What the session knew when it last saw or wrote something else at the variable is taken last.
    pub(crate) is_fresh: bool,
    /// Which writes outside the past are preferred.
    pub(crate) outside: Preference,
}

/// The plans, the most promising first.
pub(crate) const PLANS: [Plan; 4] = [
    Plan {
        stays: true,
        is_fresh: true,
        outside: Preference::Least,
    },
    Plan {
        stays: false,
        is_fresh: true,
        outside: Preference::Latest,
    },
    Plan {
        stays: true,
        is_fresh: false,
        outside: Preference::Least,
    },
    Plan {
        stays: false,
        is_fresh: true,
        outside: Preference::Least,
    },
];
