//! The colours of the words of an answer.

ghost use Rattle.std.specs.Prelude.{◌≡◌};
ghost use Rattle.app_process.specs.Dressing.{form_words, is_in_words, list_words, log_words, long_words, order_words};

use app_orders::{Form, ListForm, LogOrder, LongForm, Order, Task};
use std::alloc::AllocError;

const GREEN: &str = "\x1b[32m";

const RED: &str = "\x1b[31m";

const YELLOW: &str = "\x1b[33m";

const PLAIN: &str = "\x1b[0m";

/// Whether an answer has lines in words on criteria. No other answer is coloured.
pub(crate) fn is_in_words(task: &Task) -> bool
    ensures { result ≡ is_in_words task.now }
{
    match task {
        Task::OfInput(order, _) => order_words(order),
        Task::OfLog(order) => log_words(order),
        Task::OfPage(_, _) => false,
    }
}

fn order_words(order: &Order) -> bool
    ensures { result ≡ order_words order.now }
{
    match order {
        Order::Judge(_)
        | Order::JudgeLines(_)
        | Order::Check(_)
        | Order::Refute(_)
        | Order::Drive(_) => true,
        Order::Explain(form) => form_words(*form),
        Order::ExplainLong(form) => long_words(*form),
        Order::ListFaults(listing) => list_words(listing.form),
        Order::Replay => false,
    }
}

fn log_words(order: &LogOrder) -> bool
    ensures { result ≡ log_words order.now }
{
    match order {
        LogOrder::Judge(_) => true,
        LogOrder::Explain(form) => long_words(*form),
        LogOrder::ListFaults(_, form) => list_words(*form),
        LogOrder::WriteHistory | LogOrder::WriteNames | LogOrder::WriteNotes => false,
    }
}

fn form_words(form: Form) -> bool
    ensures { result ≡ form_words form }
{
    match form {
        Form::Words => true,
        Form::Json | Form::Certificates | Form::Picture => false,
    }
}

fn long_words(form: LongForm) -> bool
    ensures { result ≡ long_words form }
{
    match form {
        LongForm::Words => true,
        LongForm::Json | LongForm::Picture => false,
    }
}

fn list_words(form: ListForm) -> bool
    ensures { result ≡ list_words form }
{
    match form {
        ListForm::Words => true,
        ListForm::Json => false,
    }
}

/// Appends a line of an answer whose words `yes`, `no` and `unknown` are coloured. It may have several answers, with semicolons between.
pub(crate) fn push_painted(text: &mut String, line: &str) -> Result<(), AllocError> {
    let mut is_first = true;
    for answer in line.split("; ") {
        if !is_first {
            text.push_str("; ")?;
        }
        is_first = false;
        push_answer(text, answer)?;
    }
    Ok(())
}

// Appends one answer, `cc yes` and the like, and any other text as it is.
fn push_answer(text: &mut String, answer: &str) -> Result<(), AllocError> {
    match answer.split_once(' ') {
        Some((criterion, rest)) if is_criterion(criterion) => {
            text.push_str(criterion)?;
            text.push_str(" ")?;
            push_rest(text, rest)
        }
        _ => text.push_str(answer),
    }
}

fn is_criterion(word: &str) -> bool {
    match word {
        "cc" | "cm" | "ccv" => true,
        _ => false,
    }
}

// Appends what follows the name of a criterion.
fn push_rest(text: &mut String, rest: &str) -> Result<(), AllocError> {
    for (word, color) in [("yes", GREEN), ("no", RED), ("unknown", YELLOW)] {
        if let Some(after) = rest.strip_prefix(word)
            && ends_word(after)
        {
            text.push_str(color)?;
            text.push_str(word)?;
            text.push_str(PLAIN)?;
            return text.push_str(after);
        }
    }
    text.push_str(rest)
}

// Whether a word ends before this text.
fn ends_word(after: &str) -> bool {
    after.is_empty() || after.starts_with(' ') || after.starts_with('\n')
}
