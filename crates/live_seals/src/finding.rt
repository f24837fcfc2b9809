//! A look at one cell of a lane, which gives a note of the cell if it is full.

ghost use Rattle.std.specs.Prelude.{◌≡◌, ◌<◌, Some, IfSome, slice_get};
ghost use Rattle.live_seals.specs.Steps.Tables.{IsCallFound, IsReturnFound};

use crate::found::Found;
use live_recorder::{Lane, Recorded, ReturnRecord};

/// A note of a return cell, if the lane has it and it is full. One load.
pub(crate) fn find_return<O: Recorded>(
    lane: &Lane<O>,
    index: usize,
) -> Option<Found<ReturnRecord<O>>>
    ensures { IfSome result (λ f. IsReturnFound lane.now index f) }
{
    if index >= lane.places() {
        return None;
    }
    let mut note = lane.return_note(index);
    let record = lane.return_record(index, &mut note)?;
    match record.reply() {
        Some(_reply) => Some(Found::of(note)),
        None => None,
    }
}

/// A note of a call cell, if the lane has it and it is full. One load.
pub(crate) fn find_call<O: Recorded>(lane: &Lane<O>, index: usize) -> Option<Found<O::Call>>
    ensures { IfSome result (λ f. IsCallFound lane.now index f) }
{
    if index >= lane.places() {
        return None;
    }
    let mut note = lane.call_note(index);
    let _call = lane.call(index, &mut note)?;
    Some(Found::of(note))
}
