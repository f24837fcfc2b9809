//! Pages on what an input holds.

ghost use Rattle.std.specs.Option.{option_copied};
ghost use Rattle.app_process.specs.Faults.{Blames, ReadingFails, WritingFails};
ghost use Rattle.app_process.specs.Endings.{EndsLogPage, EndsPage, EndsPageOf, TellsOfPage};

use crate::log_process::{report_error, say_torn};
use crate::place::Place;
use crate::refused::history_form;
use crate::reporting::report_refused;
use crate::saying::Say;
use app_engine::RunError;
use app_orders::{Detail, Length, Page, PageOf};
use app_pages::{PageError, page_of_input, page_of_log};
use json_lines::{Sink, Source};
use show_refusals::InputForm;
use std::sync::Wait;
use std::thread::Threads;

/// Writes the page that is ordered, and returns the exit status.
pub(crate) fn write_page_of_process<
    P: Threads + Wait + Sync + AllocGlobal + Eprint,
    R: Source + Drop,
    W: Sink,
    E: Say,
>(place: &Place<'_, P>, reader: R, writer: &mut W, errors: &mut E, page: Page, detail: Detail) -> u8
    ensures { EndsPage (Blames (ReadingFails 0 R.called) (WritingFails W.called))
        (option_copied place.now.label) place.now.is_terminal page detail (R.remaining reader)
        (W.contents writer.old) (W.contents writer.new) (E.said errors.old) (E.said errors.new) result }
{
    match page.of {
        PageOf::Input(length) => {
            write_page_of_history(place, reader, writer, errors, page.most, length, detail)
        }
        PageOf::Log => write_page_of_log(place, reader, writer, errors, page.most),
    }
}

// Writes the page of a history, and returns the exit status.
#[tactic(auto, using(crate::proofs::PageLaws::shows_input, crate::proofs::PageLaws::refuses_input))]
fn write_page_of_history<
    P: Threads + Wait + Sync + AllocGlobal + Eprint,
    R: Source + Drop,
    W: Sink,
    E: Say,
>(
    place: &Place<'_, P>,
    reader: R,
    writer: &mut W,
    errors: &mut E,
    most: u32,
    length: Length,
    detail: Detail,
) -> u8
    ensures { EndsPageOf (Blames (ReadingFails 0 R.called) (WritingFails W.called))
        (option_copied place.now.label) place.now.is_terminal (PageOf.Input length) most detail (R.remaining reader)
        (W.contents writer.old) (W.contents writer.new) (E.said errors.old) (E.said errors.new) result }
{
    let mut reader = reader;
    let mut input = Vec::new(place.rt.alloc());
    match page_of_input(place.rt, &mut reader, writer, most, length, &mut input) {
        Ok(()) => 0,
        Err(error) => {
            let form = history_form(length);
            report_refused(place, errors, &error, detail, form, Some(&input))
        }
    }
}

// Writes the page of a log, and returns the exit status.
#[tactic(auto, using(crate::proofs::PageLaws::shows_log, crate::proofs::PageLaws::refuses_log_page))]
fn write_page_of_log<
    P: Threads + Wait + Sync + AllocGlobal + Eprint,
    R: Source + Drop,
    W: Sink,
    E: Say,
>(place: &Place<'_, P>, reader: R, writer: &mut W, errors: &mut E, most: u32) -> u8
    ensures { EndsLogPage (Blames (ReadingFails 0 R.called) (WritingFails W.called))
        (option_copied place.now.label) place.now.is_terminal most (R.remaining reader)
        (W.contents writer.old) (W.contents writer.new) (E.said errors.old) (E.said errors.new) result }
{
    let mut source = reader;
    let mut told = String::new(place.rt.alloc());
    match page_of_log(place.rt, &mut source, writer, most, &mut told) {
        Ok(followed) => {
            say_torn(place, errors, followed.torn);
            0
        }
        Err(error) => report_page_error(place, errors, &error, told.as_str()),
    }
}

// Says why a log has no page, and returns the exit status.
fn report_page_error<P: AllocGlobal + Eprint + Wait, E: Say>(
    place: &Place<'_, P>,
    errors: &mut E,
    error: &PageError,
    told: &str,
) -> u8
    ensures { TellsOfPage (option_copied place.now.label) place.now.is_terminal error.now (E.said errors.old) (E.said errors.new) result }
{
    match error {
        PageError::Log(error) => report_error(place, errors, error, told),
        PageError::TooLong => {
            let error = RunError::TooLong;
            let form = InputForm::History;
            report_refused(place, errors, &error, Detail::Reason, form, None)
        }
    }
}
