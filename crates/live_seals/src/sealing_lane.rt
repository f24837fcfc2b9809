//! Sealing one lane: the operations of one session as they are found, with their advice and notes.

ghost use Rattle.std.specs.Prelude.{◌≡◌, ◌<◌, ◌≤◌, ◌++◌, [], length, map, IfOk, IfSome, IsSome, Some, None};
ghost use Rattle.live_recorder.specs.Lanes.{IsLane, shown};
ghost use Rattle.live_seals.specs.Steps.Tables.{AreNotesOf, IsCallFound, IsReturnFound, IsSealedSession, IsTable, RunsTo};
ghost use Rattle.live_seals.specs.Steps.Tables.{advice_shown, advised, has_note, no_advice};
ghost use Rattle.live_seals.specs.Steps.InLanes.{RunsToCalls, TellsNote};
ghost use Rattle.live_seals.specs.Steps.Sealing.{AreCallsRead, AreReturnsRead, IsOfTable, IsToldBy, ReadsCall, ReadsReturn};

use crate::lane_table::LaneTable;
use crate::longest::LongestReceipt;
use crate::sealed_lane::SealedLane;
use live_recorder::{Lane, NoteList, Receipt, Recorded, ReturnRecord};
use model_history::{Advice, MAX_OPERATIONS};
use once_cell::race::Note;
use std::alloc::{AllocError, Global};

// A note of a return cell: from a receipt if one covers the cell, else from the look at the cell if it was full.
fn return_note<O: Recorded>(
    lane: &Lane<O>,
    receipts: &[Receipt<O>],
    best: LongestReceipt,
    table: &LaneTable<O>,
    i: usize,
) -> Option<Note<ReturnRecord<O>>>
    requires place { i < length lane.now.returns }
    requires receipts { IsToldBy receipts.now lane.now best }
    requires table { IsTable lane.now table.now }
    ensures found { IfSome result (λ n. IsReturnFound lane.now i (n.cell, n.known)) }
    ensures told { i < best.count → IsSome result }
    ensures looked { best.count ≤ i → TellsNote table.now.returns i result }
{
    let blank = lane.return_note(i);
    if i < best.count {
        let receipt = &receipts[best.at];
        return Some(receipt.told(i, blank));
    }
    match table.found_return(i) {
        Some(found) => Some(found.again(blank)),
        None => None,
    }
}

// Reads a return cell that is full, and puts its note, its operation and its advice after the others.
fn push_return<O: Recorded>(
    alloc: Global,
    lane: &Lane<O>,
    i: usize,
    known: Note<ReturnRecord<O>>,
    notes: &mut NoteList<ReturnRecord<O>>,
    operations: &mut Vec<(O::Call, Option<O::Ret>)>,
    advice: &mut Vec<Option<Advice>>,
) -> Result<(), AllocError>
    requires place { i < length lane.now.returns }
    requires found { IsReturnFound lane.now i (known.cell, known.known) }
    ensures { IfOk result (λ _. ReadsReturn O.fitting lane.now i notes.old.list notes.new.list
        operations.old.items operations.new.items advice.old.items advice.new.items) }
{
    let mut note = known;
    let Some(record) = lane.return_record(i, &mut note) else {
        unreachable!();
    };
    let Some((ret, told)) = record.reply() else {
        unreachable!();
    };
    notes.reserve()?;
    operations.push((record.call(), Some(*ret)))?;
    advice.push(Some(told.copy(alloc)?))?;
    notes.push(note);
    Ok(())
}

fn seal_returns<O: Recorded>(
    alloc: Global,
    lane: &Lane<O>,
    receipts: &[Receipt<O>],
    best: LongestReceipt,
    table: &LaneTable<O>,
    operations: &mut Vec<(O::Call, Option<O::Ret>)>,
    advice: &mut Vec<Option<Advice>>,
) -> Result<NoteList<ReturnRecord<O>>, AllocError>
    requires receipts { IsToldBy receipts.now lane.now best }
    requires within { best.count ≤ length lane.now.returns }
    requires table { IsTable lane.now table.now }
    requires empty { operations.old.items ≡ [] }
    ensures read { IfOk result (λ notes. AreReturnsRead O.fitting lane.now notes.list operations.new.items) }
    ensures told { IfOk result (λ notes. best.count ≤ length notes.list) }
    ensures short { IfOk result (λ notes. length notes.list ≤ length lane.now.calls) }
    ensures advised { IfOk result (λ notes. advice.new.items ≡ advice.old.items ++ map advice_shown notes.list) }
    ensures found { IfOk result (λ notes. RunsTo (has_note table.now.returns) best.count (length notes.list) (length table.now.returns)) }
{
    let mut notes = NoteList::new(alloc);
    for i in 0..lane.places() {
        let Some(note) = return_note(lane, receipts, best, table, i) else {
            return Ok(notes);
        };
        push_return(alloc, lane, i, note, &mut notes, operations, advice)?;
    }
    Ok(notes)
}

// Reads a call cell that is full, and puts its note and its operation after the others.
fn push_call<O: Recorded>(
    lane: &Lane<O>,
    i: usize,
    known: Note<O::Call>,
    notes: &mut NoteList<O::Call>,
    operations: &mut Vec<(O::Call, Option<O::Ret>)>,
    advice: &mut Vec<Option<Advice>>,
) -> Result<(), AllocError>
    requires place { i < length lane.now.calls }
    requires found { IsCallFound lane.now i (known.cell, known.known) }
    ensures { IfOk result (λ _. ReadsCall lane.now i notes.old.list notes.new.list
        operations.old.items operations.new.items advice.old.items advice.new.items) }
{
    let mut note = known;
    let Some(call) = lane.call(i, &mut note) else {
        unreachable!();
    };
    notes.reserve()?;
    operations.push((*call, None))?;
    advice.push(None)?;
    notes.push(note);
    Ok(())
}

fn seal_calls<O: Recorded>(
    alloc: Global,
    lane: &Lane<O>,
    table: &LaneTable<O>,
    operations: &mut Vec<(O::Call, Option<O::Ret>)>,
    advice: &mut Vec<Option<Advice>>,
) -> Result<NoteList<O::Call>, AllocError>
    requires table { IsTable lane.now table.now }
    ensures read { IfOk result (λ notes. AreCallsRead lane.now operations.old.items notes.list operations.new.items) }
    ensures short { IfOk result (λ _.
        length operations.old.items ≤ length lane.now.calls → length operations.new.items ≤ length lane.now.calls) }
    ensures advised { IfOk result (λ notes. advice.new.items ≡ advice.old.items ++ map no_advice notes.list) }
    ensures found { IfOk result (λ _.
        length operations.old.items ≤ length lane.now.calls → RunsToCalls table.now operations.old.items operations.new.items) }
{
    let mut notes = NoteList::new(alloc);
    for i in operations.len()..lane.places() {
        let Some(found) = table.found_call(i) else {
            return Ok(notes);
        };
        let note = found.again(lane.call_note(i));
        push_call(lane, i, note, &mut notes, operations, advice)?;
    }
    Ok(notes)
}

/// The operations of a session as they were found, with notes of their cells. Puts their advice after the other advice.
pub(crate) fn seal_lane<O: Recorded>(
    alloc: Global,
    lane: &Lane<O>,
    receipts: &[Receipt<O>],
    best: LongestReceipt,
    table: &LaneTable<O>,
    advice: &mut Vec<Option<Advice>>,
) -> Result<(Vec<(O::Call, Option<O::Ret>)>, SealedLane<O>), AllocError>
    requires receipts { IsToldBy receipts.now lane.now best }
    requires within { best.count ≤ length lane.now.returns }
    requires table { IsTable lane.now table.now }
    ensures session { IfOk result (λ r. IsSealedSession O.fitting r.0.items r.1) }
    ensures notes { IfOk result (λ r. AreNotesOf lane.now r.1) }
    ensures short { IfOk result (λ r. length r.0.items ≤ MAX_OPERATIONS) }
    ensures told { IfOk result (λ r. best.count ≤ length r.1.returns) }
    ensures lane { IfOk result (λ _. IsLane lane.now) }
    ensures advised { IfOk result (λ r. advice.new.items ≡ advice.old.items ++ advised r.1) }
    ensures found { IfOk result (λ r. IsOfTable table.now best.count r.0.items r.1) }
{
    let mut operations = Vec::new(alloc);
    let returns = seal_returns(alloc, lane, receipts, best, table, &mut operations, advice)?;
    let calls = seal_calls(alloc, lane, table, &mut operations, advice)?;
    let _places = lane.places();
    Ok((operations, SealedLane::of(returns, calls)))
}
