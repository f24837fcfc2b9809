//! What the line says of a script after its beginning: the place in the input, and what is wanted.

use crate::element::value_of;
use crate::operation_fault::first_text;
use crate::operation_words::no_word;
use crate::part::{Part, part_in};
use crate::placed::words_at;
use crate::shown::shown;
use crate::step_forms::{STEP_WORDS, step_form};
use json_histories::{HistoryPlace, elements_of};
use serde_json::Value;
use std::alloc::{AllocError, Global};

/// Where a step is, and what is wrong with it. Fails for want of memory alone. O(n) for an input of n bytes.
pub(crate) fn step_rest(alloc: Global, input: &[u8], place: usize) -> Result<String, AllocError> {
    match part_in(alloc, input, &[2, place]) {
        Ok(Some(step)) => {
            let words = step_words(alloc, step)?;
            words_at(alloc, step.byte, &words)
        }
        Ok(None) => Ok(String::new(alloc)),
        Err(error) => Err(error),
    }
}

// What is wrong with a step.
fn step_words(alloc: Global, step: Part<'_>) -> Result<String, AllocError> {
    match step_word(alloc, step)? {
        StepWord::None => {
            shown_words(
                alloc,
                step.text,
                "is no list that begins with",
                "the word of a step",
            )
        }
        StepWord::Known(form) => shown_words(alloc, step.text, "has not the form", form),
        StepWord::Unknown => no_word(alloc, step, "a step", STEP_WORDS),
    }
}

// What a step begins with.
#[derive(Clone, Copy)]
enum StepWord {
    // No text.
    None,
    // The word of steps of this form.
    Known(&'static str),
    // Another text.
    Unknown,
}

fn step_word(alloc: Global, step: Part<'_>) -> Result<StepWord, AllocError> {
    let value = value_of(alloc, step, HistoryPlace::Operation)?;
    let word = word_of(&value);
    drop(value);
    Ok(word)
}

fn word_of(step: &Value) -> StepWord {
    match word_in(step) {
        Some(word) => known(word),
        None => StepWord::None,
    }
}

fn known(word: &str) -> StepWord {
    match step_form(word) {
        Some(form) => StepWord::Known(form),
        None => StepWord::Unknown,
    }
}

// The word that a step begins with.
fn word_in(step: &Value) -> Option<&str> {
    match elements_of(step) {
        Some(elements) => first_text(elements),
        None => None,
    }
}

fn shown_words(alloc: Global, text: &str, words: &str, wanted: &str) -> Result<String, AllocError> {
    let shown = shown(alloc, text)?;
    format!(in alloc; "{shown} {words} {wanted}")
}
