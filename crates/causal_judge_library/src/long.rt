//! The calls on memory histories of any length.

ghost use Rattle.app_orders.specs.declared.form.LongForm.TheVariants.{Json, Picture, Words};
ghost use Rattle.app_orders.specs.declared.length.Length.TheVariants.{Any};
ghost use Rattle.app_engine.specs.Alone.{judging_alone_at};
ghost use Rattle.causal_judge_library.specs.Calls.{Tells, TellsPage};

use crate::telling::{tell, tell_page};
use app_orders::{Length, LongForm, Order, USUAL_LISTED};
use app_pages::input_page_alone;
use std::alloc::Global;

/// Judges the history in the input, as the program's `judge --long` does.
///
/// Its text, its buffer and its statuses are as those of [`causal_judge_judge`](crate::causal_judge_judge).
#[unsafe(no_mangle)]
#[tactic(auto, using(crate::proofs::Tellings::tells))]
pub extern "C" fn causal_judge_long_judge(
    alloc: Global,
    input: &[u8],
    answer: &mut [u8],
    needed: &mut usize,
) -> u8
    ensures { Tells (Order.Judge (judging_alone_at Any)) input.now answer.old answer.new needed.new result }
{
    tell(
        alloc,
        app_engine::judge_long_alone(alloc, input),
        answer,
        needed,
    )
}

/// Says why each criterion is met or not met by the history in the input, or why that is unknown, as the program's
/// `explain --long --json` does.
///
/// Its text, its buffer and its statuses are as those of [`causal_judge_judge`](crate::causal_judge_judge).
#[unsafe(no_mangle)]
#[tactic(auto, using(crate::proofs::Tellings::tells))]
pub extern "C" fn causal_judge_long_explain(
    alloc: Global,
    input: &[u8],
    answer: &mut [u8],
    needed: &mut usize,
) -> u8
    ensures { Tells (Order.ExplainLong Json) input.now answer.old answer.new needed.new result }
{
    tell(
        alloc,
        app_engine::explain_long_alone(alloc, input, LongForm::Json),
        answer,
        needed,
    )
}

/// Says the same in words, as the program's `explain --long` does.
///
/// Its text, its buffer and its statuses are as those of [`causal_judge_judge`](crate::causal_judge_judge).
#[unsafe(no_mangle)]
#[tactic(auto, using(crate::proofs::Tellings::tells))]
pub extern "C" fn causal_judge_long_explain_words(
    alloc: Global,
    input: &[u8],
    answer: &mut [u8],
    needed: &mut usize,
) -> u8
    ensures { Tells (Order.ExplainLong Words) input.now answer.old answer.new needed.new result }
{
    tell(
        alloc,
        app_engine::explain_long_alone(alloc, input, LongForm::Words),
        answer,
        needed,
    )
}

/// Says the same as a picture in SVG, as the program's `explain --long --svg` does.
///
/// Its text, its buffer and its statuses are as those of [`causal_judge_judge`](crate::causal_judge_judge).
#[unsafe(no_mangle)]
#[tactic(auto, using(crate::proofs::Tellings::tells))]
pub extern "C" fn causal_judge_long_explain_picture(
    alloc: Global,
    input: &[u8],
    answer: &mut [u8],
    needed: &mut usize,
) -> u8
    ensures { Tells (Order.ExplainLong Picture) input.now answer.old answer.new needed.new result }
{
    tell(
        alloc,
        app_engine::explain_long_alone(alloc, input, LongForm::Picture),
        answer,
        needed,
    )
}

/// Says the same as a page for a browser, with the reads that show a fault, as the program's `explain --long --html` does.
///
/// Its text, its buffer and its statuses are as those of [`causal_judge_judge`](crate::causal_judge_judge).
#[unsafe(no_mangle)]
#[tactic(auto, using(crate::proofs::Tellings::tells_page))]
pub extern "C" fn causal_judge_long_explain_page(
    alloc: Global,
    input: &[u8],
    answer: &mut [u8],
    needed: &mut usize,
) -> u8
    ensures { TellsPage Any input.now answer.old answer.new needed.new result }
{
    let page = input_page_alone(alloc, input, USUAL_LISTED, Length::Any);
    tell_page(alloc, page, answer, needed)
}

/// Checks that the pattern in the input shows that the history in it does not meet a criterion, as the program's `refute --long` does.
///
/// Its text, its buffer and its statuses are as those of [`causal_judge_judge`](crate::causal_judge_judge).
#[unsafe(no_mangle)]
#[tactic(auto, using(crate::proofs::Tellings::tells))]
pub extern "C" fn causal_judge_long_refute(
    alloc: Global,
    input: &[u8],
    answer: &mut [u8],
    needed: &mut usize,
) -> u8
    ensures { Tells (Order.Refute Any) input.now answer.old answer.new needed.new result }
{
    tell(
        alloc,
        app_engine::refute_long_alone(alloc, input),
        answer,
        needed,
    )
}
