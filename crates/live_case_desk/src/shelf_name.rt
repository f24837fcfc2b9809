//! The name of a shelf, a parameter of the types of whatever belongs to its desk.

ghost use Rattle.boxcar.specs.Table.{Shelves};

use std::marker::Brand;

/// Says which shelf the tickets, the verdicts and the board of a desk are of.
///
/// It has no calls. Whoever makes a shelf passes `Brand` where the name is asked for, and picks the shelf there.
pub trait ShelfName {
    /// The shelf.
    ghost shelf: { Shelves };
}

impl ShelfName for Brand {
    ghost use Rattle.std.specs.Prelude.{[]};

    ghost shelf = { record { tag = []; buckets = [] } };
}
