//! Links of a cycle: edges of the causal order and conflicts of writes.

ghost use Rattle.std.specs.Prelude.{◌≡◌};
ghost use Rattle.pattern_check.specs.Paths.{begin_of, end_of};

use crate::path::Path;
use model_history::OpId;
use std::marker::Model;

/// One step of a cycle of the causal order and the conflicts of writes.
#[derive(Debug, Drop)]
pub enum Link {
    /// An edge of the causal order, from the first operation to the second.
    Co(OpId, OpId),
    /// A conflict, from the write that the path begins at to the operation, which is another write of its variable. The path ends
    /// at a read that reads from that other write.
    Cf(Path, OpId),
}

impl Link {
    /// The operation that it begins at: none for a path with no operation.
    pub fn begin(&self) -> Option<OpId>
        ensures { result ≡ begin_of self.now }
    {
        match self {
            Link::Co(a, _) => Some(*a),
            Link::Cf(path, _) => path.ops().first().copied(),
        }
    }

    /// The operation that it ends at.
    pub fn end(&self) -> OpId
        ensures { result ≡ end_of self.now }
    {
        match self {
            Link::Co(_, b) => *b,
            Link::Cf(_, b) => *b,
        }
    }
}

/// Links, one after the other.
#[derive(Debug, Drop)]
pub struct Links {
    links: Vec<Link>,
}

impl Model for Links {
    ghost use Rattle.std.specs.Prelude.{List};
    ghost use Rattle.pattern_check.specs.declared.link.Link.{Link};

    ghost Value = { List Link };

    ghost view = { λ links. links.links.items };
}

impl Links {
    /// These links.
    pub fn of(links: Vec<Link>) -> Links
        ensures { result ≡ links.items }
    {
        Links { links }
    }

    /// The links, in order.
    pub fn links(&self) -> &[Link]
        ensures { result.now ≡ self.now }
    {
        self.links.as_slice()
    }
}
