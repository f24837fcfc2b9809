//! An input that is read whole.

ghost use Rattle.std.specs.Prelude.{Option, ℕ, ◌≡◌};
ghost use Rattle.std.specs.Option.{option_copied};
ghost use Rattle.app_process.specs.Faults.{Blames, ReadingFails, WritingFails};
ghost use Rattle.app_process.specs.Endings.{EndsOrder, SaysCounts};
ghost use Rattle.app_process.specs.Statuses.{status_after, wants_counts};

use crate::counting::counts_of_history;
use crate::place::Place;
use crate::refused::form_of;
use crate::reporting::report_refused;
use crate::saying::Say;
use crate::summary::{status_by_counts, wants_counts};
use app_engine::run_keeping;
use app_orders::{Detail, Manner, Order};
use json_lines::{Sink, Source};
use std::sync::Wait;
use std::thread::Threads;

/// Does what is ordered of an input, and returns the exit status.
#[tactic(auto, using(crate::proofs::EndLaws::answers_order, crate::proofs::EndLaws::refuses_order))]
pub(crate) fn status_of_order<
    P: Threads + Wait + Sync + AllocGlobal + Eprint,
    R: Source + Drop,
    W: Sink,
    E: Say,
>(
    place: &Place<'_, P>,
    reader: R,
    writer: &mut W,
    errors: &mut E,
    order: &Order,
    detail: Detail,
    manner: &Manner,
) -> u8
    ensures { EndsOrder (Blames (ReadingFails 0 R.called) (WritingFails W.called))
        (option_copied place.now.label) place.now.is_terminal order.now detail manner.now
        (R.remaining reader) (W.contents writer.old) (W.contents writer.new) (E.said errors.old) (E.said errors.new) result }
{
    let mut reader = reader;
    let mut input = Vec::new(place.rt.alloc());
    match run_keeping(place.rt, &mut reader, writer, order, &mut input) {
        Ok(outcome) => status_counted(place, errors, manner, &input, outcome.status()),
        Err(error) => {
            let form = form_of(order);
            report_refused(place, errors, &error, detail, form, Some(&input))
        }
    }
}

// The status after an answer with this one, once it was said how much the run asks, where that is wanted.
#[tactic(auto, using(crate::proofs::EndLaws::no_counts, crate::proofs::EndLaws::some_counts))]
fn status_counted<P: AllocGlobal + Eprint + Wait, E: Say>(
    place: &Place<'_, P>,
    errors: &mut E,
    manner: &Manner,
    input: &[u8],
    status: u8,
) -> u8
    ensures status { (reads : Option ℕ) × (result ≡ status_after manner.now.least_reads reads status) }
    ensures said { SaysCounts (wants_counts manner.now) (E.said errors.old) (E.said errors.new) }
{
    if !wants_counts(manner) {
        return status;
    }
    let counts = counts_of_history(place.rt.alloc(), input);
    status_by_counts(place, errors, manner, counts, status)
}
