//! What is said of the reads that the history of a log leaves out.

use crate::log_tables::LogTables;
use crate::phrases::key_words;
use crate::witnesses::{Witness, Witnesses};
use cert_check::Criterion;
use show_words::listed;
use std::alloc::{AllocError, Global};

/// The most keys that are listed by name.
pub(crate) const MAX_KEYS: usize = 8;

/// What is said of the reads that are left out, if there are any: how many they are, of which keys, and for which criteria an order is known
/// that explains them too.
///
/// Fails for want of memory alone.
pub(crate) fn left_out_words<T: LogTables>(
    alloc: Global,
    tables: &T,
    witnesses: Witnesses,
) -> Result<Option<String>, AllocError> {
    let left_out = tables.left_out();
    if left_out.is_empty() {
        return Ok(None);
    }
    let reads = sum_of(left_out);
    let keys = listed_keys(alloc, tables, left_out)?;
    let (ending, deletes) = if reads == 1 {
        ("", "delete it")
    } else {
        ("s", "deletes they")
    };
    let are = if left_out.len() == 1 { "is" } else { "are" };
    let known = witness_words(alloc, reads == 1, witnesses)?;
    let others = asked_words(alloc, tables.asked())?;
    let words = format!(in alloc;
        "{reads} read{ending} found nothing at {keys}, which {are} deleted at some time. Which {deletes} saw, if any, is not known{known}{others}"
    )?;
    Ok(Some(words))
}

// What is said of reads that found nothing and stand in the history, if there are any.
fn asked_words(alloc: Global, asked: u64) -> Result<String, AllocError> {
    match asked {
        0 => Ok(String::new(alloc)),
        1 => format!(in alloc; " 1 more such read is asked: one thing alone can be what it saw."),
        _ => format!(in alloc;
            " {asked} more such reads are asked: one thing alone can be what each saw."
        ),
    }
}

// The sum of some counts.
fn sum_of(counts: &[(u32, u32)]) -> u64 {
    let mut sum = 0u64;
    for (_, count) in counts {
        sum = sum.saturating_add(u64::from(*count));
    }
    sum
}

// The first 8 of these keys of a log by their names, and how many more there are.
fn listed_keys<T: LogTables>(
    alloc: Global,
    tables: &T,
    counts: &[(u32, u32)],
) -> Result<String, AllocError> {
    let mut named = Vec::new(alloc);
    for (key, _) in counts.iter().take(MAX_KEYS) {
        named.push(key_words(alloc, tables, *key)?)?;
    }
    listed(alloc, &named, counts.len().saturating_sub(MAX_KEYS))
}

// How the words on reads that are left out end.
fn witness_words(alloc: Global, is_one: bool, witnesses: Witnesses) -> Result<String, AllocError> {
    let (ask, all) = if is_one {
        ("it asks", "it")
    } else {
        ("they ask", "all of them")
    };
    let found = criteria_with(alloc, witnesses, Witness::Found)?;
    let missing = criteria_with(alloc, witnesses, Witness::Missing)?;
    match (
        witnesses.has(Witness::Found),
        witnesses.has(Witness::Missing),
    ) {
        (false, false) => format!(in alloc; ": {ask} nothing."),
        (true, false) => format!(in alloc; ". An order explains {all}."),
        (false, true) => missing_words(alloc, missing.as_str(), all),
        (true, true) => {
            let rest = missing_words(alloc, missing.as_str(), all)?;
            format!(in alloc; ". For {found} an order explains {all}{rest}")
        }
    }
}

// What is said of criteria for which no order was found.
fn missing_words(alloc: Global, criteria: &str, all: &str) -> Result<String, AllocError> {
    format!(in alloc;
        ". For {criteria} no order was found that explains {all}, and it was not shown that there is none: the yes is of all other reads."
    )
}

// The criteria of which this is known.
fn criteria_with(
    alloc: Global,
    witnesses: Witnesses,
    witness: Witness,
) -> Result<String, AllocError> {
    let mut names = Vec::new(alloc);
    for criterion in [Criterion::Cc, Criterion::Cm, Criterion::Ccv] {
        if witnesses.of(criterion) == witness {
            names.push(String::from_str(alloc, criterion.name())?)?;
        }
    }
    listed(alloc, &names, 0)
}
