//! The judge as a library for programs in C, and in whatever calls C: bytes in, bytes out, and a status.
//!
//! `embed/causal_judge.h` declares the calls: those of this file on histories within the limits, those of [`long`] on memory histories of
//! any length, and those of [`logs`] on logs. No call starts a thread, keeps anything, or reads or writes anything but what it is given.
#![tactic(auto)]

pub mod logs;
pub mod long;
mod telling;
#[cfg(test)]
mod tests;

ghost use Rattle.app_orders.specs.declared.form.Form.TheVariants.{Json, Picture, Words};
ghost use Rattle.app_orders.specs.declared.length.Length.TheVariants.{Limited};
ghost use Rattle.app_engine.specs.Alone.{judging_alone};
ghost use Rattle.causal_judge_library.specs.Calls.{Tells, TellsPage};

use crate::telling::{tell, tell_page};
use app_orders::{Form, Length, Order, USUAL_LISTED};
use app_pages::input_page_alone;
use std::alloc::Global;

/// The status of a call whose answer is in its buffer.
pub const ANSWERED: u8 = 0;

/// The status of a call that refuses its input: the line that says why is in its buffer.
pub const REFUSED: u8 = 1;

/// The status of a call whose buffer has no room for its text: the buffer is as it was.
pub const TOO_SMALL: u8 = 3;

/// The status of a call for which there was no memory: the buffer is as it was.
pub const NO_MEMORY: u8 = 4;

/// Judges the history in the input, as the program's `judge` does.
///
/// Puts the resulting text into the buffer `answer`, and the number of its bytes into `needed`: what the program
/// writes to standard output, with status 0, or what it writes to standard error, with status 1. Status 3 where the buffer is
/// smaller than the text, and status 4 for want of memory; the buffer is then as it was.
#[unsafe(no_mangle)]
#[tactic(auto, using(crate::proofs::Tellings::tells))]
pub extern "C" fn causal_judge_judge(
    alloc: Global,
    input: &[u8],
    answer: &mut [u8],
    needed: &mut usize,
) -> u8
    ensures { Tells (Order.Judge judging_alone) input.now answer.old answer.new needed.new result }
{
    tell(alloc, app_engine::judge_alone(alloc, input), answer, needed)
}

/// Checks the certificate in the input against the history in it, as the program's `check` does.
///
/// Its text, its buffer and its statuses are as those of [`causal_judge_judge`].
#[unsafe(no_mangle)]
#[tactic(auto, using(crate::proofs::Tellings::tells))]
pub extern "C" fn causal_judge_check(
    alloc: Global,
    input: &[u8],
    answer: &mut [u8],
    needed: &mut usize,
) -> u8
    ensures { Tells (Order.Check 1) input.now answer.old answer.new needed.new result }
{
    tell(alloc, app_engine::check_alone(alloc, input), answer, needed)
}

/// Says why each criterion is met or not met by the history in the input, or why that is unknown, as the program's
/// `explain --json` does.
///
/// Its text, its buffer and its statuses are as those of [`causal_judge_judge`].
#[unsafe(no_mangle)]
#[tactic(auto, using(crate::proofs::Tellings::tells))]
pub extern "C" fn causal_judge_explain(
    alloc: Global,
    input: &[u8],
    answer: &mut [u8],
    needed: &mut usize,
) -> u8
    ensures { Tells (Order.Explain Json) input.now answer.old answer.new needed.new result }
{
    tell(
        alloc,
        app_engine::explain_alone(alloc, input),
        answer,
        needed,
    )
}

/// Says the same in words, as the program's `explain` does.
///
/// Its text, its buffer and its statuses are as those of [`causal_judge_judge`].
#[unsafe(no_mangle)]
#[tactic(auto, using(crate::proofs::Tellings::tells))]
pub extern "C" fn causal_judge_explain_words(
    alloc: Global,
    input: &[u8],
    answer: &mut [u8],
    needed: &mut usize,
) -> u8
    ensures { Tells (Order.Explain Words) input.now answer.old answer.new needed.new result }
{
    tell(
        alloc,
        app_engine::explain_as_alone(alloc, input, Form::Words),
        answer,
        needed,
    )
}

/// Says the same as a picture in SVG, as the program's `explain --svg` does.
///
/// Its text, its buffer and its statuses are as those of [`causal_judge_judge`].
#[unsafe(no_mangle)]
#[tactic(auto, using(crate::proofs::Tellings::tells))]
pub extern "C" fn causal_judge_explain_picture(
    alloc: Global,
    input: &[u8],
    answer: &mut [u8],
    needed: &mut usize,
) -> u8
    ensures { Tells (Order.Explain Picture) input.now answer.old answer.new needed.new result }
{
    tell(
        alloc,
        app_engine::explain_as_alone(alloc, input, Form::Picture),
        answer,
        needed,
    )
}

/// Says the same as a page for a browser, with the reads that show a fault, as the program's `explain --html` does.
///
/// Its text, its buffer and its statuses are as those of [`causal_judge_judge`].
#[unsafe(no_mangle)]
#[tactic(auto, using(crate::proofs::Tellings::tells_page))]
pub extern "C" fn causal_judge_explain_page(
    alloc: Global,
    input: &[u8],
    answer: &mut [u8],
    needed: &mut usize,
) -> u8
    ensures { TellsPage Limited input.now answer.old answer.new needed.new result }
{
    let page = input_page_alone(alloc, input, USUAL_LISTED, Length::Limited);
    tell_page(alloc, page, answer, needed)
}

/// Checks that the pattern in the input shows that the history in it does not meet a criterion, as the program's `refute` does.
///
/// Its text, its buffer and its statuses are as those of [`causal_judge_judge`].
#[unsafe(no_mangle)]
#[tactic(auto, using(crate::proofs::Tellings::tells))]
pub extern "C" fn causal_judge_refute(
    alloc: Global,
    input: &[u8],
    answer: &mut [u8],
    needed: &mut usize,
) -> u8
    ensures { Tells (Order.Refute Limited) input.now answer.old answer.new needed.new result }
{
    tell(
        alloc,
        app_engine::refute_alone(alloc, input),
        answer,
        needed,
    )
}
