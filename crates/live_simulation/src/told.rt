//! The counts of operations, one for each session, with which a sealer starts.

ghost use Rattle.std.specs.Prelude.{◌≡◌, List, ℕ};

use std::marker::Model;

/// How many operations of each session a sealer knows at its start.
#[derive(Debug, Drop)]
pub struct Told {
    counts: Vec<u16>,
}

impl Model for Told {
    ghost Value = { List ℕ };

    ghost view = { λ told. told.counts.items };
}

impl Told {
    /// These counts, one for each session.
    pub fn of(counts: Vec<u16>) -> Told
        ensures { result ≡ counts.items }
    {
        Told { counts }
    }

    /// The counts, in the order of the sessions.
    pub fn counts(&self) -> &[u16]
        ensures { result.now ≡ self.now }
    {
        self.counts.as_slice()
    }
}
