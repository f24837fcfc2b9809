//! The guarantees that stale reads break.

ghost use Rattle.std.specs.Prelude.{◌≡◌};
ghost use Rattle.show_words.specs.Guarantees.{guarantee_name};

use crate::forms::{Made, with_one};
use crate::naming::Names;
use model_history::OpId;
use pattern_check::Pattern;
use std::alloc::Global;

/// What a store may promise its clients, one promise stronger in what it follows than the one before: the session guarantees of Terry,
/// Demers, Petersen, Spreitzer, Theimer and Welch, "Session guarantees for weakly consistent replicated data" (1994), and the causal order.
#[derive(Clone, Copy, Debug, PartialEq, Eq)]
pub enum Guarantee {
    /// A session sees what it wrote before.
    ReadYourWrites,
    /// A session sees what its reads saw before.
    MonotonicReads,
    /// Who sees a write sees what its session wrote before it.
    MonotonicWrites,
    /// Who sees a write sees what its session had read before it.
    WritesFollowReads,
    /// Who sees a write sees all that is before it in the causal order.
    CausalOrder,
}

impl Guarantee {
    /// The guarantees, in order.
    pub const ALL: [Guarantee; 5] = [
        Guarantee::ReadYourWrites,
        Guarantee::MonotonicReads,
        Guarantee::MonotonicWrites,
        Guarantee::WritesFollowReads,
        Guarantee::CausalOrder,
    ];

    /// What a read breaks that missed a write, if so many links lead from the write to the read. A link is a stretch of one session, or
    /// a read of what the operation before it wrote; the last link is a stretch of the session that reads.
    pub fn of_links(links: usize) -> Guarantee {
        match links {
            0 | 1 => Guarantee::ReadYourWrites,
            2 => Guarantee::MonotonicReads,
            3 => Guarantee::MonotonicWrites,
            4 => Guarantee::WritesFollowReads,
            _ => Guarantee::CausalOrder,
        }
    }

    /// The name in words.
    pub fn name(self) -> &'static str
        ensures { result.now ≡ guarantee_name self }
    {
        match self {
            Guarantee::ReadYourWrites => "read your writes",
            Guarantee::MonotonicReads => "monotonic reads",
            Guarantee::MonotonicWrites => "monotonic writes",
            Guarantee::WritesFollowReads => "writes follow reads",
            Guarantee::CausalOrder => "causal order",
        }
    }
}

/// What the stale read of a pattern breaks, by the path that the pattern shows from the missed write to the read. None if the pattern
/// shows no stale read.
///
/// O(n) for n operations of the path.
pub(crate) fn broken_by<N: Names>(names: &N, pattern: &Pattern) -> Option<Guarantee> {
    match pattern {
        Pattern::WriteCOInitRead(path) | Pattern::WriteCORead(_, path) => {
            Some(Guarantee::of_links(links_of(names, path.ops())))
        }
        Pattern::CyclicCO(_)
        | Pattern::ThinAirRead(_)
        | Pattern::WriteHBInitRead(_, _)
        | Pattern::CyclicHB(_, _)
        | Pattern::CyclicCF(_) => None,
    }
}

// How many links a path has. Edges of one client, one after the other, are one link.
fn links_of<N: Names>(names: &N, ops: &[OpId]) -> usize {
    let mut links: usize = 0;
    let mut stays = false;
    for i in 1..ops.len() {
        let goes_on = names.goes_on(ops[i - 1], ops[i]);
        if !(stays && goes_on) {
            links = links.saturating_add(1);
        }
        stays = goes_on;
    }
    links
}

/// The sentence that says what is broken.
pub(crate) fn sentence_on_guarantee(alloc: Global, guarantee: Guarantee) -> Made {
    with_one(
        alloc,
        "This breaks A.",
        String::from_str(alloc, guarantee.name()),
    )
}
