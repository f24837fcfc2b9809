//! What is wrong, in the terms of each kind of pattern.

use crate::forms::{Made, with_one, with_three, with_two};
use crate::naming::Names;
use model_history::{History, OpId};
use model_objects::Memory;
use order_memory::{initial_value, known_read};
use pattern_check::{Kind, Pair, Pattern};
use std::alloc::Global;

/// The sentence where the operations are not as the kind of pattern says.
pub(crate) const NOTHING: &str = "These operations show nothing in this history.";

/// The sentence that says what is wrong, from where the steps of a pattern begin and where they end, or that nothing is shown.
///
/// Fails for want of memory alone. O(log n) for a table of n entries.
pub(crate) fn sentence_of<N: Names>(
    alloc: Global,
    h: &History<Memory>,
    names: &N,
    pattern: &Pattern,
    ends: Pair,
) -> Made {
    let (begin, _) = ends;
    match pattern {
        Pattern::WriteHBInitRead(op, _) => sentence_on_session(alloc, h, names, *op, ends),
        Pattern::CyclicHB(op, _) => {
            let puts = words_that_put(alloc, names, *op, begin);
            with_one(alloc, "What A before itself.", puts)
        }
        Pattern::CyclicCO(_) => sentence_on_cycle(alloc, names, begin, "in the causal order"),
        Pattern::CyclicCF(_) => {
            let words =
                "in the causal order and the arbitration together: no order of all writes agrees with what was read";
            sentence_on_cycle(alloc, names, begin, words)
        }
        Pattern::ThinAirRead(_) | Pattern::WriteCOInitRead(_) | Pattern::WriteCORead(_, _) => {
            sentence_on_read(alloc, h, names, pattern.kind(), ends)
        }
    }
}

// The sentence on an operation that comes before itself.
fn sentence_on_cycle<N: Names>(alloc: Global, names: &N, op: OpId, words: &'static str) -> Made {
    let words = String::from_str(alloc, words);
    with_two(
        alloc,
        "So A comes before itself B.",
        names.operation(alloc, op),
        words,
    )
}

// The sentence on a read that should have read something else. The first operation is the one that contradicts the read.
fn sentence_on_read<N: Names>(
    alloc: Global,
    h: &History<Memory>,
    names: &N,
    kind: Kind,
    ends: Pair,
) -> Made {
    let (other, read) = ends;
    match known_read(h, read) {
        Some((key, value)) => {
            let initial = initial_value(h, key);
            let words = wrong_read_words(alloc, names, kind, (key, value), initial, other);
            with_two(alloc, "A B.", names.operation(alloc, read), words)
        }
        None => String::from_str(alloc, NOTHING),
    }
}

// What a read did that got a value which nobody wrote, or one which the other operation had overwritten: the initial one by one kind.
fn wrong_read_words<N: Names>(
    alloc: Global,
    names: &N,
    kind: Kind,
    read: (u32, u64),
    initial: u64,
    other: OpId,
) -> Made {
    let (key, value) = read;
    match kind {
        Kind::ThinAirRead => {
            let phrase = names.unwritten_read_words(alloc, key, value);
            with_two(
                alloc,
                "A, and B",
                phrase,
                names.initial_words(alloc, key, initial),
            )
        }
        Kind::WriteCOInitRead => {
            let phrase = names.initial_read_words(alloc, key, value);
            overwritten_words(alloc, phrase, names.operation(alloc, other))
        }
        _ => {
            let phrase = with_one(alloc, "read A", names.value(alloc, key, value));
            overwritten_words(alloc, phrase, names.operation(alloc, other))
        }
    }
}

// What a read did that got a value which an operation had overwritten.
fn overwritten_words(alloc: Global, phrase: Made, other: Made) -> Made {
    with_two(
        alloc,
        "A, which B had overwritten in its past",
        phrase,
        other,
    )
}

// The sentence on what a session has read up to an operation, which puts a write before a read of the initial value.
fn sentence_on_session<N: Names>(
    alloc: Global,
    h: &History<Memory>,
    names: &N,
    op: OpId,
    ends: Pair,
) -> Made {
    let (first, second) = ends;
    match known_read(h, second) {
        Some((key, value)) => {
            let read = initial_read(alloc, names, second, key, value);
            let puts = words_that_put(alloc, names, op, first);
            with_two(
                alloc,
                "A, but what B, which writes the variable, before it.",
                read,
                puts,
            )
        }
        None => String::from_str(alloc, NOTHING),
    }
}

// What the session of an operation has read, which puts another before some other.
fn words_that_put<N: Names>(alloc: Global, names: &N, op: OpId, first: OpId) -> Made {
    let session = names.session(alloc, op);
    let op = names.operation(alloc, op);
    with_three(
        alloc,
        "A has read up to B puts C",
        session,
        op,
        names.operation(alloc, first),
    )
}

// A read that got the initial value of a variable, with its name in front.
fn initial_read<N: Names>(alloc: Global, names: &N, read: OpId, key: u32, value: u64) -> Made {
    let name = names.operation(alloc, read);
    with_two(
        alloc,
        "A B",
        name,
        names.initial_read_words(alloc, key, value),
    )
}
