//! What a picture says in words.

use crate::marks::Relation;
use crate::reason::Reason;
use cert_check::Criterion;
use model_history::OpId;
use pattern_check::{Kind, Pattern};
use show_words::{Guarantee, Names};
use std::alloc::{AllocError, Global};

/// Says at the head of a picture of a pattern which criterion the history does not meet, what the kind of pattern says, and which guarantee
/// is broken, if one is.
pub(crate) fn push_lines_of_reason<N: Names>(
    alloc: Global,
    lines: &mut Vec<String>,
    names: &N,
    reason: Reason<'_>,
) -> Result<(), AllocError> {
    let Reason {
        criterion,
        pattern,
        broken,
    } = reason;
    push_line(lines, title_of(alloc, criterion, pattern.kind())?)?;
    push_line(lines, claim_of(alloc, criterion)?)?;
    push_line(lines, sentence_of(alloc, names, pattern)?)?;
    match broken {
        Some(guarantee) => push_line(lines, sentence_on_guarantee(alloc, guarantee)?),
        None => Ok(()),
    }
}

/// Adds a line.
pub(crate) fn push_line(lines: &mut Vec<String>, line: String) -> Result<(), AllocError> {
    Ok(lines.push(line)?)
}

// The criterion and the kind of a pattern.
fn title_of(alloc: Global, criterion: Criterion, kind: Kind) -> Result<String, AllocError> {
    let name = criterion.name();
    let kind = kind.name();
    format!(in alloc; "{name} no {kind}")
}

// Which criterion the history does not meet.
fn claim_of(alloc: Global, criterion: Criterion) -> Result<String, AllocError> {
    let criterion = words_of_criterion(criterion);
    format!(in alloc; "The history does not meet {criterion}:")
}

// The name of a criterion, written out.
fn words_of_criterion(criterion: Criterion) -> &'static str {
    match criterion {
        Criterion::Cc => "causal consistency",
        Criterion::Cm => "causal memory",
        Criterion::Ccv => "causal convergence",
    }
}

// What is wrong.
fn sentence_of<N: Names>(
    alloc: Global,
    names: &N,
    pattern: &Pattern,
) -> Result<String, AllocError> {
    match pattern {
        Pattern::WriteHBInitRead(op, _) | Pattern::CyclicHB(op, _) => {
            sentence_about(alloc, names, *op, words_of_kind(pattern.kind()))
        }
        _ => String::from_str(alloc, words_of_kind(pattern.kind())),
    }
}

// Which guarantee is broken.
fn sentence_on_guarantee(alloc: Global, guarantee: Guarantee) -> Result<String, AllocError> {
    let name = guarantee.name();
    format!(in alloc; "This breaks {name}.")
}

// What is wrong in the relation of an operation.
fn sentence_about<N: Names>(
    alloc: Global,
    names: &N,
    op: OpId,
    words: &str,
) -> Result<String, AllocError> {
    let session = names.session(alloc, op)?;
    let name = names.operation(alloc, op)?;
    format!(in alloc; "what {session} has read up to {name} puts {words}")
}

// What a kind says; for a happened-before relation, what it puts before what.
fn words_of_kind(kind: Kind) -> &'static str {
    match kind {
        Kind::CyclicCO => "an operation comes before itself.",
        Kind::ThinAirRead => "a read returned a value that nobody wrote.",
        Kind::WriteCOInitRead => "a read returned the initial value after a write of its variable.",
        Kind::WriteCORead => "a read returned a value that was overwritten before it.",
        Kind::WriteHBInitRead => "a write before a read of the initial value.",
        Kind::CyclicHB => "an operation before itself.",
        Kind::CyclicCF => "no order of all writes agrees with what was read.",
    }
}

/// What the legend says of an edge of a relation.
pub(crate) fn words_of_relation(relation: Relation) -> &'static str {
    match relation {
        Relation::ProgramOrder => "session order: later in the same session",
        Relation::ReadsFrom => "reads from: a write to a read of its value",
        Relation::Conflict => "overwritten: must come before the other",
        Relation::HappenedBefore => "must come before, by what was read",
    }
}

/// What the legend says of an operation that is wrong by a kind.
pub(crate) fn words_of_wrong(kind: Kind) -> &'static str {
    match kind {
        Kind::CyclicCO | Kind::CyclicCF | Kind::CyclicHB => "wrong: each comes before the next",
        Kind::ThinAirRead | Kind::WriteCOInitRead | Kind::WriteCORead | Kind::WriteHBInitRead => {
            "wrong: this read"
        }
    }
}
