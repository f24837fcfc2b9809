//! The calls on logs of events.

ghost use Rattle.app_orders.specs.declared.form.LongForm.TheVariants.{Json, Picture, Words};
ghost use Rattle.app_orders.specs.declared.log_order.LogOrder.TheVariants.{Explain, Judge, WriteHistory};
ghost use Rattle.app_logs.specs.Alone.{judging_once as once};
ghost use Rattle.causal_judge_library.specs.Calls.{TellsLog, TellsLogPage};

use crate::telling::{tell_log, tell_log_page};
use app_logs::{answer_log_alone, judging_once};
use app_orders::{LogOrder, LongForm, USUAL_LISTED};
use app_pages::log_page_alone;
use std::alloc::Global;

/// Judges the history of the log in the input, as the program's `judge --events` does.
///
/// As there a last line that is not whole is passed over. The text of a refusal is two lines or more: the number of the refusal and of the
/// line at fault, and what is wrong there. Else its text, its buffer and its statuses are as those of
/// [`causal_judge_judge`](crate::causal_judge_judge).
#[unsafe(no_mangle)]
pub extern "C" fn causal_judge_log_judge(
    alloc: Global,
    input: &[u8],
    answer: &mut [u8],
    needed: &mut usize,
) -> u8
    ensures { TellsLog input.now answer.old answer.new needed.new result (Judge once) }
{
    answer_to(
        alloc,
        input,
        LogOrder::Judge(judging_once()),
        answer,
        needed,
    )
}

/// Says why each criterion is met or not met by the history of the log in the input, or why that is unknown, as the program's
/// `explain --events --json` does.
///
/// Its text, its buffer and its statuses are as those of [`causal_judge_log_judge`].
#[unsafe(no_mangle)]
pub extern "C" fn causal_judge_log_explain(
    alloc: Global,
    input: &[u8],
    answer: &mut [u8],
    needed: &mut usize,
) -> u8
    ensures { TellsLog input.now answer.old answer.new needed.new result (Explain Json) }
{
    answer_to(
        alloc,
        input,
        LogOrder::Explain(LongForm::Json),
        answer,
        needed,
    )
}

/// Says the same in words, as the program's `explain --events` does.
///
/// Its text, its buffer and its statuses are as those of [`causal_judge_log_judge`].
#[unsafe(no_mangle)]
pub extern "C" fn causal_judge_log_explain_words(
    alloc: Global,
    input: &[u8],
    answer: &mut [u8],
    needed: &mut usize,
) -> u8
    ensures { TellsLog input.now answer.old answer.new needed.new result (Explain Words) }
{
    answer_to(
        alloc,
        input,
        LogOrder::Explain(LongForm::Words),
        answer,
        needed,
    )
}

/// Says the same as a picture in SVG, as the program's `explain --events --svg` does.
///
/// Its text, its buffer and its statuses are as those of [`causal_judge_log_judge`].
#[unsafe(no_mangle)]
pub extern "C" fn causal_judge_log_explain_picture(
    alloc: Global,
    input: &[u8],
    answer: &mut [u8],
    needed: &mut usize,
) -> u8
    ensures { TellsLog input.now answer.old answer.new needed.new result (Explain Picture) }
{
    answer_to(
        alloc,
        input,
        LogOrder::Explain(LongForm::Picture),
        answer,
        needed,
    )
}

/// Says the same as a page for a browser, with the reads that show a fault, as the program's `explain --events --html` does.
///
/// A log that is too long for a page is refused as an input is. Else its text, its buffer and its statuses are as those of
/// [`causal_judge_log_judge`].
#[unsafe(no_mangle)]
pub extern "C" fn causal_judge_log_explain_page(
    alloc: Global,
    input: &[u8],
    answer: &mut [u8],
    needed: &mut usize,
) -> u8
    ensures { TellsLogPage input.now answer.old answer.new needed.new result }
{
    let mut told = String::new(alloc);
    let page = log_page_alone(alloc, input, USUAL_LISTED, &mut told);
    tell_log_page(alloc, page, told.as_str(), answer, needed)
}

/// Writes the history of the log in the input, in the form that [`causal_judge_long_judge`](crate::long::causal_judge_long_judge) reads, as
/// the program's `events` does.
///
/// Its text, its buffer and its statuses are as those of [`causal_judge_log_judge`].
#[unsafe(no_mangle)]
pub extern "C" fn causal_judge_log_events(
    alloc: Global,
    input: &[u8],
    answer: &mut [u8],
    needed: &mut usize,
) -> u8
    ensures { TellsLog input.now answer.old answer.new needed.new result (WriteHistory) }
{
    answer_to(alloc, input, LogOrder::WriteHistory, answer, needed)
}

// Puts the answer to an order on a log into the buffer, and returns the call's status.
#[tactic(auto, using(crate::proofs::Tellings::tells_log))]
fn answer_to(
    alloc: Global,
    input: &[u8],
    order: LogOrder,
    answer: &mut [u8],
    needed: &mut usize,
) -> u8
    ensures { TellsLog input.now answer.old answer.new needed.new result order }
{
    let mut told = String::new(alloc);
    let outcome = answer_log_alone(alloc, input, &order, &mut told);
    tell_log(alloc, outcome, told.as_str(), answer, needed)
}
