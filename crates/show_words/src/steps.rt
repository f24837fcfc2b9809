//! The steps that a text shows.

use crate::derived_pairs::ends_of;
use crate::step::Step;
use model_history::OpId;
use pattern_check::Path;
use std::alloc::{AllocError, Global};

/// How many steps a text shows at the beginning, and how many at the end: it leaves out the others between them.
pub(crate) const MAX_AT_AN_END: usize = 20;

/// The first and the last steps of what shows a pattern, each once.
#[derive(Drop)]
pub(crate) struct Steps {
    first: Vec<Step>,
    last: Vec<Step>,
    left_out: u64,
}

impl Steps {
    /// No steps.
    pub fn none(alloc: Global) -> Steps {
        Steps {
            first: Vec::new(alloc),
            last: Vec::new(alloc),
            left_out: 0,
        }
    }

    /// The first ones.
    pub fn first(&self) -> &[Step] {
        self.first.as_slice()
    }

    /// The last ones, after those that are left out.
    pub fn last(&self) -> &[Step] {
        self.last.as_slice()
    }

    /// How many are left out between the first and the last ones.
    pub fn left_out(&self) -> u64 {
        self.left_out
    }

    /// Adds one step, unless it is among the shown ones already.
    pub fn push(&mut self, step: Step) -> Result<(), AllocError> {
        if self.first.contains(&step) || self.last.contains(&step) {
            return Ok(());
        }
        if self.left_out == 0 && self.last.is_empty() && self.first.len() < MAX_AT_AN_END {
            self.first.push(step)?;
            return Ok(());
        }
        if self.last.len() >= MAX_AT_AN_END {
            self.last.remove(0);
            self.left_out = self.left_out.saturating_add(1);
        }
        self.last.push(step)?;
        Ok(())
    }

    /// Adds two steps, one after the other.
    pub fn push_two(&mut self, first: Step, second: Step) -> Result<(), AllocError> {
        self.push(first)?;
        self.push(second)
    }

    /// Leaves out a number of steps, and with them those before them that are not among the first.
    pub fn leave_out(&mut self, count: u64) {
        let before = self.last.len() as u64;
        self.left_out = self.left_out.saturating_add(before).saturating_add(count);
        self.last.clear();
    }

    /// Adds the steps of a path.
    pub fn follow(&mut self, path: &Path) -> Result<(), AllocError> {
        let mut before: Option<OpId> = None;
        for op in path.ops() {
            if let Some(before) = before {
                self.push(Step::between(before, *op))?;
            }
            before = Some(*op);
        }
        Ok(())
    }

    /// Adds the steps of a path and, if there is more than one, where they lead from and to.
    pub fn lead(&mut self, path: &Path) -> Result<(), AllocError> {
        self.follow(path)?;
        match ends_of(path) {
            Some((from, to)) if path.ops().len() > 2 => self.push(Step::Leads(from, to)),
            _ => Ok(()),
        }
    }
}
