//! The lines on parts of a history that do not meet a criterion by themselves.

ghost use Rattle.std.specs.Prelude.{IfOk, IfSome, string_bytes};
ghost use Rattle.app_orders.specs.declared.length.Length.TheVariants.{Limited};
ghost use Rattle.judge_subhistories.specs.Cores.{IsCoreText};
ghost use Rattle.app_explanations.specs.CoresInWords.{IsTextOfCore};

use crate::finding_lines::words_of_kind;
use crate::lines::Lines;
use cert_check::Criterion;
use json_histories::{AnyHistory, History};
use judge_decision::Decision;
use judge_subhistories::{
    Excluded, core_text, excluded_without, ops_with_sources, pattern_in_whole,
};
use model_objects::Memory;
use order_memory::IndexedMemory;
use pattern_check::Pattern;
use show_words::{
    Names, OwnNames, repeated_variables, words_of_kept, words_of_pattern, words_without_variables,
};
use std::alloc::{AllocError, Global};

/// The lines on a pattern of a history of a memory: its words, and its core if it has one.
///
/// Fails for want of memory alone. It costs what the words take, and what [`core_text`] takes.
pub(crate) fn lines_with_core<N: Names>(
    alloc: Global,
    history: &History<Memory>,
    names: &N,
    criterion: Criterion,
    pattern: &Pattern,
) -> Result<Lines, AllocError>
    ensures { IfOk result (λ lines. IfSome lines.core
        (λ t. IsTextOfCore Limited (AnyHistory.Memory history.now) criterion (string_bytes t))) }
{
    let words = words_of_pattern(alloc, history, names, pattern)?;
    with_core(alloc, words, history, names, criterion, pattern)
}

/// Words, and the lines that show that a history without the variables whose values are not distinct does not meet a criterion, if
/// [`excluded_without`] finds that.
///
/// Fails for want of memory alone. It costs what [`excluded_without`] and the lines on a pattern take.
pub(crate) fn lines_without_variables<N: Names>(
    alloc: Global,
    words: Vec<String>,
    memory: &IndexedMemory,
    names: &N,
    criterion: Criterion,
) -> Result<Lines, AllocError>
    ensures { IfOk result (λ lines. IfSome lines.core
        (λ t. IsTextOfCore Limited (AnyHistory.Memory memory.now) criterion (string_bytes t))) }
{
    let history = memory.history();
    let variables = repeated_variables(alloc, memory)?;
    match excluded_without(alloc, history, &variables, criterion)? {
        Some(excluded) => {
            let lines = lines_of_excluded(
                alloc, words, history, names, criterion, &variables, &excluded,
            );
            drop(excluded);
            lines
        }
        None => Ok(Lines::of_words(alloc, words)),
    }
}

// Words, and the lines that show that a part does not meet a criterion.
fn lines_of_excluded<N: Names>(
    alloc: Global,
    words: Vec<String>,
    history: &History<Memory>,
    names: &N,
    criterion: Criterion,
    variables: &[u32],
    excluded: &Excluded,
) -> Result<Lines, AllocError>
    ensures { IfOk result (λ lines. IfSome lines.core (λ t. IsCoreText excluded.now.part criterion (string_bytes t))) }
{
    let mut words = words;
    match &excluded.decision {
        Decision::Excluded(pattern) => {
            words.push(words_without_variables(alloc, names, variables, pattern.kind())?)?;
            push_in_whole(alloc, &mut words, history, names, variables, pattern)?;
            with_core(alloc, words, &excluded.part, &OwnNames, criterion, pattern)
        }
        Decision::ExcludedBy(kind) => {
            words.push(words_without_variables(alloc, names, variables, *kind)?)?;
            words.push(words_of_kind(alloc, *kind)?)?;
            Ok(Lines::of_words(alloc, words))
        }
        Decision::Meets | Decision::Open => Ok(Lines::of_words(alloc, words)),
    }
}

// Adds the words of a pattern of a part, with the operations as the whole numbers them.
fn push_in_whole<N: Names>(
    alloc: Global,
    lines: &mut Vec<String>,
    history: &History<Memory>,
    names: &N,
    variables: &[u32],
    pattern: &Pattern,
) -> Result<(), AllocError> {
    let renamed = pattern_in_whole(alloc, history, variables, pattern)?;
    let words = words_of_pattern(alloc, history, names, &renamed);
    drop(renamed);
    for line in words? {
        lines.push(line)?;
    }
    Ok(())
}

// Words, and the core of a pattern, if it has one, with which operations it has.
fn with_core<N: Names>(
    alloc: Global,
    words: Vec<String>,
    history: &History<Memory>,
    names: &N,
    criterion: Criterion,
    pattern: &Pattern,
) -> Result<Lines, AllocError>
    ensures { IfOk result (λ lines. IfSome lines.core (λ t. IsCoreText history.now criterion (string_bytes t))) }
{
    match core_text(alloc, history, criterion, pattern)? {
        Some(core) => Ok(Lines {
            words,
            core: Some(core),
            after: words_after_core(alloc, history, names, pattern)?,
        }),
        None => Ok(Lines::of_words(alloc, words)),
    }
}

// The words on which operations the core of a pattern has.
fn words_after_core<N: Names>(
    alloc: Global,
    history: &History<Memory>,
    names: &N,
    pattern: &Pattern,
) -> Result<Vec<String>, AllocError> {
    let mut words = Vec::new(alloc);
    if names.tells_more() {
        let ops = ops_with_sources(alloc, history, pattern)?;
        words.push(words_of_kept(alloc, names, &ops)?)?;
    }
    Ok(words)
}
