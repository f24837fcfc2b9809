//! Reads of the history in an input that show a fault, in a list.

ghost use Rattle.std.specs.Prelude.{◌≡◌, IfErr, IfOk, string_bytes};
ghost use Rattle.json_histories.specs.AnyForm.{IsAnyHistory, IsJson, form_of};
ghost use Rattle.app_explanations.specs.ListingFaults.{IsListedAs};
ghost use Rattle.app_explanations.specs.ListTexts.{IsLongOf};
ghost use Rattle.app_engine.specs.Running.{IsOutput, IsOutputError};
ghost use Rattle.app_engine.specs.Steps.ReportErrors.{IsReportError};

use crate::failure::RunError;
use app_explanations::{list_in_limited, listed_long};
use app_findings::PieceWork;
use app_orders::{Length, ListForm, Listing, Order};
use json_histories::{AnyHistory, read_history};
use judge_decision::SessionWork;
use judge_memory::LongHistory;
use judge_reader::read_long;
use std::alloc::Global;

/// Lists reads of the history in the input that show a fault: each returned a value that nobody wrote, or missed a write.
///
/// The lines of `judge` come first, with the pattern of a kind that no read shows by itself. Refuses what is no history, and fails for
/// want of memory. It costs what `explain` costs, and O(n k) for n operations of k sessions.
#[tactic(auto, using(crate::proofs::LongOutputs::error_listed))]
pub fn list_faults<W: PieceWork + SessionWork>(
    work: &W,
    alloc: Global,
    input: &[u8],
    listing: Listing,
) -> Result<String, RunError>
    requires can_check { W.can_check work.now }
    requires can_work { W.can_work work.now }
    ensures output { IfOk result (λ text. IsOutput (Order.ListFaults listing) input.now (string_bytes text)) }
    ensures error { IfErr result (IsOutputError (Order.ListFaults listing) input.now) }
{
    match listing.length {
        Length::Limited => { list_in_limited_input(work, alloc, input, listing.most, listing.form) }
        Length::Any => list_in_long_input(work, alloc, input, listing.most, listing.form),
    }
}

// The list of the history in an input, within the limits. A memory history is read once more, as one of any length.
fn list_in_limited_input<W: PieceWork>(
    work: &W,
    alloc: Global,
    input: &[u8],
    most: u32,
    form: ListForm,
) -> Result<String, RunError>
    requires { W.can_check work.now }
    ensures list { IfOk result (λ text. IsListedAs form Length.Limited most input.now (string_bytes text)) }
    ensures error { IfErr result (IsReportError Length.Limited input.now) }
{
    let history = read_history(alloc, input)?;
    match long_of(alloc, input, &history) {
        Ok(long) => {
            let long = long.as_ref();
            Ok(list_in_limited(work, alloc, history, long, most, form)?)
        }
        Err(error) => {
            history.discard();
            Err(error)
        }
    }
}

// The history in an input as one of any length, where it is one of a memory.
fn long_of(
    alloc: Global,
    input: &[u8],
    history: &AnyHistory,
) -> Result<Option<LongHistory>, RunError>
    requires is_history { IsAnyHistory history.now }
    requires read { IsJson input.now (form_of history.now) }
    ensures long { IfOk result (IsLongOf history.now) }
    ensures error { IfErr result (λ e. e ≡ RunError.Memory) }
{
    let AnyHistory::Memory(_) = history else {
        return Ok(None);
    };
    match read_long(alloc, input) {
        Ok(long) => Ok(Some(long)),
        Err(_no_memory) => Err(RunError::Memory),
    }
}

// The list of the history in an input, of any length.
fn list_in_long_input<W: PieceWork + SessionWork>(
    work: &W,
    alloc: Global,
    input: &[u8],
    most: u32,
    form: ListForm,
) -> Result<String, RunError>
    requires can_check { W.can_check work.now }
    requires can_work { W.can_work work.now }
    ensures list { IfOk result (λ text. IsListedAs form Length.Any most input.now (string_bytes text)) }
    ensures error { IfErr result (IsReportError Length.Any input.now) }
{
    let history = read_long(alloc, input)?;
    let text = listed_long(work, alloc, &history, most, form);
    drop(history);
    Ok(text?)
}
