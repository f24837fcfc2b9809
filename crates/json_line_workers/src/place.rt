//! Places in an input.
ghost use Rattle.std.specs.Prelude.{◌≡◌, true};
ghost use Rattle.json_line_workers.specs.Places.{start};

/// A place in an input, from which lines are not yet answered.
#[derive(Clone, Copy)]
pub struct Place {
    /// How many bytes come before it.
    pub at: u64,
    /// Whether a line goes on here that is answered already: the lines after it are meant.
    pub inside: bool,
}

impl Place {
    /// The start.
    pub(crate) fn first() -> Place
        ensures { result ≡ start }
    {
        Place {
            at: 0,
            inside: false,
        }
    }

    /// Whether it is the same place. False tells nothing.
    pub(crate) fn is(self, other: Place) -> bool
        ensures { result ≡ true → self ≡ other }
    {
        if self.at != other.at {
            return false;
        }
        self.inside == other.inside
    }
}
