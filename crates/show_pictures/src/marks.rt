//! What a picture highlights: operations, and what joins them.

use model_history::OpId;
use pattern_check::Path;
use std::alloc::{AllocError, Global};

/// The most joints that a picture draws: nobody reads more.
const MAX_JOINTS: usize = 256;

/// How one operation is joined to another.
#[derive(Clone, Copy, PartialEq, Eq)]
pub(crate) enum Relation {
    /// From an operation to a later one of its session.
    ProgramOrder,
    /// From a write to a read that reads from it.
    ReadsFrom,
    /// From a write to the other write of its variable that an operation after it reads from.
    Conflict,
    /// From an operation to one that it happened before, as a derivation shows.
    HappenedBefore,
}

impl Relation {
    /// Each relation, in the order of the legend.
    pub fn all() -> [Relation; 4] {
        [
            Relation::ProgramOrder,
            Relation::ReadsFrom,
            Relation::Conflict,
            Relation::HappenedBefore,
        ]
    }
}

/// Two operations that are joined.
#[derive(Clone, Copy, PartialEq, Eq)]
pub(crate) struct Joint {
    pub from: OpId,
    pub to: OpId,
    pub relation: Relation,
}

/// An operation that is wrong, with the words for its box.
#[derive(Drop)]
struct Fault {
    op: OpId,
    words: String,
}

/// The operations and the joints that a picture highlights, each once.
#[derive(Drop)]
pub(crate) struct Marks {
    ops: Vec<OpId>,
    faults: Vec<Fault>,
    joints: Vec<Joint>,
    is_cut: bool,
}

impl Marks {
    /// No marks.
    pub fn none(alloc: Global) -> Marks {
        Marks {
            ops: Vec::new(alloc),
            faults: Vec::new(alloc),
            joints: Vec::new(alloc),
            is_cut: false,
        }
    }

    /// The mark of an operation.
    pub fn one(alloc: Global, op: OpId) -> Result<Marks, AllocError> {
        let mut marks = Marks::none(alloc);
        marks.mark(op)?;
        Ok(marks)
    }

    /// The operations.
    pub fn ops(&self) -> &[OpId] {
        self.ops.as_slice()
    }

    /// The joints, whose ends are among the operations.
    pub fn joints(&self) -> &[Joint] {
        self.joints.as_slice()
    }

    /// Whether there were more joints than a picture draws.
    pub fn is_cut(&self) -> bool {
        self.is_cut
    }

    /// Whether an operation is marked.
    pub fn contains(&self, op: OpId) -> bool {
        self.ops.contains(&op)
    }

    /// The words about an operation that is wrong.
    pub fn fault(&self, op: OpId) -> Option<&str> {
        for fault in &self.faults {
            if fault.op == op {
                return Some(fault.words.as_str());
            }
        }
        None
    }

    /// Marks an operation.
    pub fn mark(&mut self, op: OpId) -> Result<(), AllocError> {
        if !self.contains(op) {
            self.ops.push(op)?;
        }
        Ok(())
    }

    /// Marks an operation that is wrong, with the words for its box. The first words for an operation stay.
    pub fn blame(&mut self, op: OpId, words: String) -> Result<(), AllocError> {
        if self.fault(op).is_some() {
            return Ok(());
        }
        self.mark(op)?;
        Ok(self.faults.push(Fault { op, words })?)
    }

    /// Joins two operations, and marks both.
    pub fn join(&mut self, from: OpId, to: OpId, relation: Relation) -> Result<(), AllocError> {
        let joint = Joint { from, to, relation };
        if self.joints.contains(&joint) {
            return Ok(());
        }
        if self.joints.len() >= MAX_JOINTS {
            self.is_cut = true;
            return Ok(());
        }
        self.mark(from)?;
        self.mark(to)?;
        Ok(self.joints.push(joint)?)
    }

    /// Joins two operations by an edge of the causal order: by program order in one session, else as a write and its read.
    pub fn step(&mut self, from: OpId, to: OpId) -> Result<(), AllocError> {
        self.join(from, to, edge_between(from, to))
    }

    /// Joins the operations of a path, each to the next.
    pub fn follow(&mut self, path: &Path) -> Result<(), AllocError> {
        let mut before: Option<OpId> = None;
        for op in path.ops() {
            match before {
                Some(before) => self.step(before, *op)?,
                None => self.mark(*op)?,
            }
            before = Some(*op);
        }
        Ok(())
    }
}

// The edge of the causal order from one operation to another.
fn edge_between(from: OpId, to: OpId) -> Relation {
    if from.session == to.session && from.index < to.index {
        Relation::ProgramOrder
    } else {
        Relation::ReadsFrom
    }
}
