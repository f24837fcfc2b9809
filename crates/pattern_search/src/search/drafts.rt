//! Drafts of derivations, which grow line by line.

ghost use Rattle.std.specs.Prelude.{◌≡◌, ◌≢◌, ◌↔◌, ℕ, ◌+◌, ◌<◌, ◌≤◌, length, slice_get, IfOk, IsTrue, Some};
ghost use Rattle.model_history.specs.declared.op_id.OpId.{OpId as Operation};
ghost use Rattle.model_history.specs.History.{IsOp};
ghost use Rattle.order_memory.specs.Memory.{MemoryHistory};
ghost use Rattle.order_memory.specs.SourceOrder.{SourceOrder};
ghost use Rattle.order_memory.specs.Steps.Indexed.{IsSourcePast};
ghost use Rattle.pattern_check.specs.Derivations.{Gives};
ghost use Rattle.pattern_search.specs.Steps.Drafts.{EndsWithin, GivesWithin, IsDraft, IsWritten};
ghost use Rattle.pattern_search.specs.Steps.Reasons.{AreGrounded, ArePremises, IsPremise, last_of};

use crate::search::reasons::{Reasons, last_counted, raise_of};
use crate::search::routes_back::path_between;
use model_history::OpId;
use order_memory::{CausalOrder, Cause, Raise};
use pattern_check::{Derivation, Line, MAX_LINES, Pair};
use std::alloc::{AllocError, Global};
use std::marker::Model;

/// The lines so far of a derivation.
#[derive(Drop)]
pub struct Draft {
    alloc: Global,
    lines: Vec<Line>,
    /// What the lines give.
    pairs: Vec<Pair>,
}

impl Model for Draft {
    ghost use Rattle.std.specs.Prelude.{List};
    ghost use Rattle.pattern_check.specs.declared.derivation.Line.{Line as DerivationLine};
    ghost use Rattle.pattern_check.specs.Derivations.{Pair as Given};

    ghost Value = { List DerivationLine × List Given };

    ghost view = { λ draft. (draft.lines.items, draft.pairs.items) };
}

impl Draft {
    /// No lines.
    pub fn new(alloc: Global) -> Draft
        ensures empty { length result.0 ≡ 0 }
        ensures draft { (h : MemoryHistory) (o : Operation) → IsDraft h o result }
    {
        Draft {
            alloc,
            lines: Vec::new(alloc),
            pairs: Vec::new(alloc),
        }
    }

    /// The derivation of these lines.
    pub fn into_derivation(self) -> Derivation
        ensures { result ≡ self.0 }
    {
        Derivation::of(self.lines)
    }

    /// Whether there is room for the lines of a raise and of a pair after it.
    pub fn has_room(&self) -> bool
        ensures { IsTrue result ↔ (length self.now.0 + 7 ≤ MAX_LINES) }
    {
        self.lines.len() <= MAX_LINES - 7
    }

    /// Appends a line that gives a pair. Returns its number.
    fn push(&mut self, pair: Pair, line: Line) -> Result<u64, AllocError>
        ensures { (h : MemoryHistory) (o : Operation) → IsDraft h o self.old → Gives h o self.old.1 line pair.0 pair.1
            → IfOk result (EndsWithin h o 1 pair self.old self.new) }
    {
        let number = self.lines.len() as u64;
        self.lines.push(line)?;
        self.pairs.push(pair)?;
        Ok(number)
    }

    /// Appends a line that gives a pair of the causal order, in a derivation for an operation. Returns its number.
    pub fn push_causal(
        &mut self,
        order: &CausalOrder,
        op: OpId,
        pair: Pair,
    ) -> Result<u64, AllocError>
        requires draft { IsDraft order.now op self.old }
        requires before { SourceOrder order.now pair.0 pair.1 }
        requires apart { pair.0 ≢ pair.1 }
        requires past { IsSourcePast order.now op pair.1 }
        ensures { IfOk result (EndsWithin order.now op 1 pair self.old self.new) }
    {
        let above = path_between(self.alloc, order, pair.0, pair.1)?;
        let below = path_between(self.alloc, order, pair.1, op)?;
        self.push(pair, Line::Co(above, below))
    }

    /// The number of a line that gives a pair. It is made from a line that gives `last` and the second of the pair. `last` is the
    /// first of the pair or is after it in its session.
    pub fn reach_back(
        &mut self,
        order: &CausalOrder,
        op: OpId,
        pair: Pair,
        last: OpId,
        line: u64,
    ) -> Result<u64, AllocError>
        requires draft { IsDraft order.now op self.old }
        requires session { pair.0.session ≡ last.session }
        requires up_to { pair.0.index ≤ last.index }
        requires is_op { IsOp order.now last }
        requires past { IsSourcePast order.now op last }
        requires given { slice_get self.old.1 line ≡ Some (last, pair.1) }
        ensures line { IfOk result (GivesWithin order.now op 2 pair self.old self.new) }
        ensures last { line + 1 ≡ length self.old.1 → IfOk result (λ number. number + 1 ≡ length self.new.1) }
    {
        if last == pair.0 {
            return Ok(line);
        }
        let first = self.push_causal(order, op, (pair.0, last))?;
        self.push(pair, Line::Tr(first, line))
    }

    /// The number of a line that gives a pair which a raise rests on. The line of each raise that the pair rests on is already written.
    fn line_of(
        &mut self,
        order: &CausalOrder,
        op: OpId,
        reasons: &Reasons,
        written: &[u64],
        pair: Pair,
    ) -> Result<u64, AllocError>
        requires draft { IsDraft order.now op self.old }
        requires grounded { AreGrounded order.now op reasons.now }
        requires premise { IsPremise order.now op reasons.now (length reasons.now) pair }
        requires written { IsWritten order.now reasons.now written.now self.old.1 pair }
        ensures { IfOk result (GivesWithin order.now op 2 pair self.old self.new) }
    {
        match raise_of(order, reasons, pair) {
            None => self.push_causal(order, op, pair),
            Some(number) => {
                let last = last_counted(&reasons.raise(number));
                self.reach_back(order, op, pair, last, listed(written, number))
            }
        }
    }

    /// Writes what a raise rests on, and then a line that gives a pair: the last operation that the raise counts, and the operation
    /// of the raise. The line of each raise that it rests on is already written. Returns the number of the line with the pair,
    /// which is the last one.
    pub fn push_raise(
        &mut self,
        order: &CausalOrder,
        op: OpId,
        reasons: &Reasons,
        written: &[u64],
        raise: &Raise,
    ) -> Result<u64, AllocError>
        requires draft { IsDraft order.now op self.old }
        requires grounded { AreGrounded order.now op reasons.now }
        requires stands { (n : ℕ) × (slice_get reasons.now n ≡ Some raise.now) }
        requires written { ArePremises (IsWritten order.now reasons.now written.now self.old.1) raise.now }
        ensures { IfOk result (EndsWithin order.now op 5 (last_of raise.now, raise.now.op) self.old self.new) }
    {
        let last = last_counted(raise);
        let pair = (last, raise.op);
        match raise.cause {
            Cause::Through(middle) => {
                let first = self.line_of(order, op, reasons, written, (last, middle))?;
                let second = self.line_of(order, op, reasons, written, (middle, raise.op))?;
                self.push(pair, Line::Tr(first, second))
            }
            Cause::Read(read) => {
                let before = self.line_of(order, op, reasons, written, (last, read))?;
                self.push(pair, Line::Rf(before, read))
            }
        }
    }
}

/// The number at a place of a list.
fn listed(numbers: &[u64], place: usize) -> u64
    requires { place < length numbers.now }
    ensures { slice_get numbers.now place ≡ Some result }
{
    numbers[place]
}
