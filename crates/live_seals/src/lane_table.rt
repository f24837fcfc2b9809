//! Tables of the cells of one lane that are found full, each with its note.

ghost use Rattle.std.specs.Prelude.{◌≡◌, ◌<◌, ℕ, Option, length, slice_get, slice_set, IfOk, Some, None};

use crate::found::Found;
use live_recorder::{Recorded, ReturnRecord};
use std::alloc::{AllocError, Global};
use std::marker::Model;

/// Which cells of a lane were found full, each with a note of it.
#[derive(Drop)]
pub(crate) struct LaneTable<O: Recorded> {
    returns: Vec<Option<Found<ReturnRecord<O>>>>,
    calls: Vec<Option<Found<O::Call>>>,
}

impl<O: Recorded> Model for LaneTable<O> {
    ghost use Rattle.live_seals.specs.Steps.Tables.{TableState};

    ghost Value = { TableState O.Call O.Ret };

    ghost view = { λ t. record { returns = t.returns.items; calls = t.calls.items } };
}

impl<O: Recorded> LaneTable<O> {
    /// A table for so many places, with nothing found.
    pub(crate) fn new(alloc: Global, places: usize) -> Result<LaneTable<O>, AllocError>
        ensures returns { IfOk result (λ t. length t.returns ≡ places) }
        ensures calls { IfOk result (λ t. length t.calls ≡ places) }
        ensures no_return { IfOk result (λ t. (i : ℕ) (x : Option _) → slice_get t.returns i ≡ Some x → x ≡ None) }
        ensures no_call { IfOk result (λ t. (i : ℕ) (x : Option _) → slice_get t.calls i ≡ Some x → x ≡ None) }
    {
        let returns = none_found(alloc, places)?;
        let calls = none_found(alloc, places)?;
        Ok(LaneTable { returns, calls })
    }

    /// Keeps a note of a return cell.
    pub(crate) fn keep_return(&mut self, at: usize, found: Found<ReturnRecord<O>>)
        requires { at < length self.old.returns }
        ensures returns { self.new.returns ≡ slice_set self.old.returns at (Some found) }
        ensures calls { self.new.calls ≡ self.old.calls }
    {
        self.returns[at] = Some(found);
    }

    /// Keeps a note of a call cell.
    pub(crate) fn keep_call(&mut self, at: usize, found: Found<O::Call>)
        requires { at < length self.old.calls }
        ensures calls { self.new.calls ≡ slice_set self.old.calls at (Some found) }
        ensures returns { self.new.returns ≡ self.old.returns }
    {
        self.calls[at] = Some(found);
    }

    /// The note of a return cell that was found full.
    pub(crate) fn found_return(&self, at: usize) -> &Option<Found<ReturnRecord<O>>>
        requires { at < length self.now.returns }
        ensures { slice_get self.now.returns at ≡ Some result.now }
    {
        &self.returns[at]
    }

    /// The note of a call cell that was found full.
    pub(crate) fn found_call(&self, at: usize) -> &Option<Found<O::Call>>
        requires { at < length self.now.calls }
        ensures { slice_get self.now.calls at ≡ Some result.now }
    {
        &self.calls[at]
    }
}

fn none_found<T>(alloc: Global, many: usize) -> Result<Vec<Option<Found<T>>>, AllocError>
    ensures many { IfOk result (λ v. length v.items ≡ many) }
    ensures none { IfOk result (λ v. (i : ℕ) (x : Option _) → slice_get v.items i ≡ Some x → x ≡ None) }
{
    let mut found = Vec::with_capacity(alloc, many)?;
    for _place in 0..many {
        found.push(None)?;
    }
    Ok(found)
}
