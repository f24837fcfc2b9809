//! Pages of what is in memory, made by the calling thread alone.

ghost use Rattle.std.specs.Prelude.{◌≤◌, IfErr, IfOk, OnOk, Some, length as length_of};
ghost use Rattle.app_engine.specs.InputLengths.{most_bytes};
ghost use Rattle.app_engine.specs.Running.{Fails};
ghost use Rattle.app_engine.specs.declared.input.TheConstants.{MAX_INPUT_BYTES};
ghost use Rattle.app_pages.specs.Writing.{FailsToWrite, IsPageOfInput, IsPageOfLog, listing_order};

use crate::failure::PageError;
use crate::inputs::page_of_text;
use crate::logs::{LogPage, page_of_bytes};
use app_engine::{CallingThread, Length, RunError, stay_within};
use std::alloc::Global;

/// The page that [`page_of_input`](crate::page_of_input) writes of this input. It starts no thread.
///
/// Refuses what that refuses, and fails for want of memory, at the cost of that.
pub fn input_page_alone(
    alloc: Global,
    input: &[u8],
    most: u32,
    length: Length,
) -> Result<Vec<u8>, RunError>
    ensures within { OnOk result (length_of input.now ≤ most_bytes length) }
    ensures page { IfOk result (λ page. IsPageOfInput most length input.now page.items) }
    ensures failed { IfErr result (Fails (listing_order most length) (Some input.now)) }
{
    stay_within(input, length)?;
    page_of_text(&CallingThread, alloc, input, most, length)
}

/// The page that [`page_of_log`](crate::page_of_log) writes of this log. It starts no thread.
///
/// Refuses what that refuses, and then appends to `details` what it appends; or fails for want of memory, at the cost of that.
pub fn log_page_alone(
    alloc: Global,
    log: &[u8],
    most: u32,
    details: &mut String,
) -> Result<LogPage, PageError>
    ensures within { OnOk result (length_of log.now ≤ MAX_INPUT_BYTES) }
    ensures page { IfOk result (λ page. IsPageOfLog most page.torn log.now page.bytes.items) }
    ensures failed { IfErr result (FailsToWrite most (Some log.now)) }
{
    stay_within(log, Length::Limited)?;
    Ok(page_of_bytes(&CallingThread, alloc, log, most, details)?)
}
