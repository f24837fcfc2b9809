//! The outcome of a call, handed over in the buffer of its caller.

ghost use Rattle.std.specs.Prelude.{◌≡◌, IfOk, string_bytes};
ghost use Rattle.causal_judge_library.specs.Calls.{IsTold, log_refusal_text, refusal_text};
ghost use Rattle.causal_judge_library.specs.Steps.{TellsFailure, TellsLogFailure, TellsOf, TellsOfLog, TellsOfLogPage, TellsOfPage};

use crate::{ANSWERED, NO_MEMORY, REFUSED, TOO_SMALL};
use app_engine::{Answered, RunError, fault_line, status_of};
use app_logs::{LogError, error_lines, status_of_error};
use app_pages::{LogPage, PageError};
use std::alloc::{AllocError, Global};

/// Puts the outcome of a call into the buffer, and returns the call's status.
pub fn tell(
    alloc: Global,
    outcome: Result<String, RunError>,
    answer: &mut [u8],
    needed: &mut usize,
) -> u8
    ensures { TellsOf answer.old answer.new needed.new result outcome }
{
    match outcome {
        Ok(text) => put(text.as_bytes(), ANSWERED, answer, needed),
        Err(error) => tell_failure(alloc, error, answer, needed),
    }
}

/// The same of a page.
pub fn tell_page(
    alloc: Global,
    outcome: Result<Vec<u8>, RunError>,
    answer: &mut [u8],
    needed: &mut usize,
) -> u8
    ensures { TellsOfPage answer.old answer.new needed.new result outcome }
{
    match outcome {
        Ok(page) => put(page.as_slice(), ANSWERED, answer, needed),
        Err(error) => tell_failure(alloc, error, answer, needed),
    }
}

/// The same of an answer to a log, of a refused line of which this is told.
pub fn tell_log(
    alloc: Global,
    outcome: Result<Answered, LogError>,
    told: &str,
    answer: &mut [u8],
    needed: &mut usize,
) -> u8
    ensures { TellsOfLog answer.old answer.new needed.new result told.now outcome }
{
    match outcome {
        Ok(answered) => put(answered.text.as_bytes(), ANSWERED, answer, needed),
        Err(error) => tell_log_failure(alloc, error, told, answer, needed),
    }
}

/// The same of the page of a log.
pub fn tell_log_page(
    alloc: Global,
    outcome: Result<LogPage, PageError>,
    told: &str,
    answer: &mut [u8],
    needed: &mut usize,
) -> u8
    ensures { TellsOfLogPage answer.old answer.new needed.new result told.now outcome }
{
    match outcome {
        Ok(page) => put(page.bytes.as_slice(), ANSWERED, answer, needed),
        Err(PageError::TooLong) => tell_failure(alloc, RunError::TooLong, answer, needed),
        Err(PageError::Log(error)) => tell_log_failure(alloc, error, told, answer, needed),
    }
}

// The line of a refusal, with status 1; and status 4 for any other failure, which is want of memory.
fn tell_failure(alloc: Global, error: RunError, answer: &mut [u8], needed: &mut usize) -> u8
    ensures { TellsFailure answer.old answer.new needed.new result error }
{
    if status_of(&Err(error)) != REFUSED {
        return tell_nothing(needed);
    }
    match text_of_refusal(alloc, &error) {
        Ok(text) => put(text.as_bytes(), REFUSED, answer, needed),
        Err(_) => tell_nothing(needed),
    }
}

// The same of a log: the lines of a refused line of it.
fn tell_log_failure(
    alloc: Global,
    error: LogError,
    told: &str,
    answer: &mut [u8],
    needed: &mut usize,
) -> u8
    ensures { TellsLogFailure answer.old answer.new needed.new result told.now error }
{
    if status_of_error(&error) != REFUSED {
        return tell_nothing(needed);
    }
    match text_of_log_refusal(alloc, &error, told) {
        Ok(text) => put(text.as_bytes(), REFUSED, answer, needed),
        Err(_) => tell_nothing(needed),
    }
}

// The status of a call that returns no text for want of memory.
fn tell_nothing(needed: &mut usize) -> u8
    ensures status { result ≡ NO_MEMORY }
    ensures needed { needed.new ≡ 0 }
{
    *needed = 0;
    NO_MEMORY
}

// The line of a refusal, and a line feed.
fn text_of_refusal(alloc: Global, error: &RunError) -> Result<String, AllocError>
    ensures { IfOk result (λ text. string_bytes text ≡ refusal_text error.now) }
{
    let line = fault_line(alloc, error)?;
    format!(in alloc; "{line}\n")
}

// The lines of a refused line of a log, and a line feed.
fn text_of_log_refusal(alloc: Global, error: &LogError, told: &str) -> Result<String, AllocError>
    ensures { IfOk result (λ text. string_bytes text ≡ log_refusal_text error.now told.now) }
{
    let lines = error_lines(alloc, error, told)?;
    format!(in alloc; "{lines}\n")
}

// Puts a text into the buffer, where it has room in it, and returns the status that says so.
fn put(text: &[u8], fitting: u8, answer: &mut [u8], needed: &mut usize) -> u8
    ensures { IsTold answer.old answer.new needed.new fitting result text.now }
{
    *needed = text.len();
    if text.len() > answer.len() {
        return TOO_SMALL;
    }
    answer[..text.len()].copy_from_slice(text);
    fitting
}
