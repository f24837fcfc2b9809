//! The lines that say why a criterion is met, not met, or unknown.

ghost use Rattle.std.specs.Prelude.{◌≡◌, IfOk, IfSome, None, string_bytes};
ghost use Rattle.app_orders.specs.declared.length.Length.TheVariants.{Limited};
ghost use Rattle.app_explanations.specs.CoresInWords.{IsTextOfCore};
ghost use Rattle.app_explanations.specs.Steps.Examining.{history_of};

use crate::examined::Examined;
use crate::lines::Lines;
use crate::part_lines::{lines_with_core, lines_without_variables};
use app_findings::Finding;
use cert_check::{Certificate, Criterion};
use json_histories::{AnyHistory, History, OpId};
use order_memory::IndexedMemory;
use pattern_check::{Kind, Pattern};
use show_words::{Names, Worded, push_unexplained, words_of_repeated_values};
use std::alloc::{AllocError, Global};

/// The line on what is met with a certificate.
const CERTIFIED: &str =
    "An order explains every known return: explain --json --certificates writes it.";

/// The lines that say why a history meets a criterion, does not, or why that is not known.
///
/// The words promise nothing. A core is judged by itself before it is written. Fails for want of memory alone. The cost is that
/// of the words and the core of a pattern, of a certificate where a memory meets causal memory, of the piece that a certificate
/// does not explain, and of the history without the variables whose values are not distinct.
pub(crate) fn lines_of_finding<N: Names>(
    alloc: Global,
    history: Examined<'_, '_>,
    names: &N,
    criterion: Criterion,
    finding: &Finding,
) -> Result<Lines, AllocError>
    ensures { IfOk result (λ lines. IfSome lines.core (λ t. IsTextOfCore Limited (history_of history.entry) criterion (string_bytes t))) }
{
    match finding {
        Finding::Met(Some(_)) => one_line(alloc, CERTIFIED),
        Finding::Met(None) => lines_of_met(alloc, history, criterion),
        Finding::Shown(pattern) => lines_of_pattern(alloc, history, names, criterion, pattern),
        Finding::Present(kind) => line_of_kind(alloc, *kind),
        Finding::Unexplained(Some(op), certificate) => {
            let shown = Some((*op, certificate.as_ref()));
            lines_of_unknown(alloc, history, names, criterion, shown)
        }
        Finding::Unexplained(None, _) => lines_of_unknown(alloc, history, names, criterion, None),
    }
}

// The line on what is met where no certificate is at hand: how one is written, or why none is.
fn lines_of_met(
    alloc: Global,
    history: Examined<'_, '_>,
    criterion: Criterion,
) -> Result<Lines, AllocError>
    ensures { IfOk result (λ lines. lines.core ≡ None) }
{
    let words = if has_certificate(alloc, history, criterion)? {
        CERTIFIED
    } else {
        "An order explains every known return, but no certificate is written: a happened-before relation has more than 100,000 pairs."
    };
    one_line(alloc, words)
}

// Whether a certificate is made of a history that meets a criterion. A memory history may have none for causal memory.
fn has_certificate(
    alloc: Global,
    history: Examined<'_, '_>,
    criterion: Criterion,
) -> Result<bool, AllocError> {
    match (history, criterion) {
        (Examined::Memory(memory), Criterion::Cm) => {
            Ok(cert_make_cm::make_indexed(alloc, memory, &[])?.is_some())
        }
        _ => Ok(true),
    }
}

// One line.
fn one_line(alloc: Global, words: &'static str) -> Result<Lines, AllocError>
    ensures { IfOk result (λ lines. lines.core ≡ None) }
{
    Lines::of_line(alloc, String::from_str(alloc, words)?)
}

// The lines on a pattern. Only memories have known patterns.
fn lines_of_pattern<N: Names>(
    alloc: Global,
    history: Examined<'_, '_>,
    names: &N,
    criterion: Criterion,
    pattern: &Pattern,
) -> Result<Lines, AllocError>
    ensures { IfOk result (λ lines. IfSome lines.core (λ t. IsTextOfCore Limited (history_of history.entry) criterion (string_bytes t))) }
{
    match history {
        Examined::Memory(memory) => {
            lines_with_core(alloc, memory.history(), names, criterion, pattern)
        }
        Examined::Object(_) => line_of_kind(alloc, pattern.kind()),
    }
}

/// The line on a kind, without its pattern.
pub(crate) fn line_of_kind(alloc: Global, kind: Kind) -> Result<Lines, AllocError>
    ensures { IfOk result (λ lines. lines.core ≡ None) }
{
    Lines::of_line(alloc, words_of_kind(alloc, kind)?)
}

/// The words on a kind, without its pattern.
pub(crate) fn words_of_kind(alloc: Global, kind: Kind) -> Result<String, AllocError> {
    let kind = kind.name();
    format!(in alloc; "A pattern of the kind {kind} is there, which might be too long to write.")
}

// The lines on what is not known, with the first operation that the certificate that was made does not explain.
fn lines_of_unknown<N: Names>(
    alloc: Global,
    history: Examined<'_, '_>,
    names: &N,
    criterion: Criterion,
    shown: Option<(OpId, Option<&Certificate>)>,
) -> Result<Lines, AllocError>
    ensures { IfOk result (λ lines. IfSome lines.core (λ t. IsTextOfCore Limited (history_of history.entry) criterion (string_bytes t))) }
{
    match history {
        Examined::Memory(memory) => lines_of_memory(alloc, memory, names, criterion, shown),
        Examined::Object(history) => lines_of_object(alloc, history, names, shown),
    }
}

// The lines on what is not known of a memory whose values are not distinct: which values these are, what the certificate that is
// made does not explain, and what the other variables show.
fn lines_of_memory<N: Names>(
    alloc: Global,
    memory: &IndexedMemory,
    names: &N,
    criterion: Criterion,
    shown: Option<(OpId, Option<&Certificate>)>,
) -> Result<Lines, AllocError>
    ensures { IfOk result (λ lines. IfSome lines.core
        (λ t. IsTextOfCore Limited (AnyHistory.Memory memory.now) criterion (string_bytes t))) }
{
    let mut words = words_of_repeated_values(alloc, memory, names)?;
    push_line(
        alloc,
        &mut words,
        "So a read does not tell its write: only a certificate can decide, and only for a yes.",
    )?;
    push_certificate(alloc, &mut words, memory.history(), names, shown)?;
    lines_without_variables(alloc, words, memory, names, criterion)
}

// The lines on what is not known of an object that has no patterns.
fn lines_of_object<N: Names>(
    alloc: Global,
    history: &AnyHistory,
    names: &N,
    shown: Option<(OpId, Option<&Certificate>)>,
) -> Result<Lines, AllocError>
    ensures { IfOk result (λ lines. lines.core ≡ None) }
{
    let mut words = Vec::new(alloc);
    push_line(
        alloc,
        &mut words,
        "No patterns are known of this object: only a certificate can decide, and only for a yes.",
    )?;
    push_certificate_of_any(alloc, &mut words, history, names, shown)?;
    Ok(Lines::of_words(alloc, words))
}

// Adds what the certificate that was made of a history of any object does not explain.
fn push_certificate_of_any<N: Names>(
    alloc: Global,
    lines: &mut Vec<String>,
    history: &AnyHistory,
    names: &N,
    shown: Option<(OpId, Option<&Certificate>)>,
) -> Result<(), AllocError> {
    match history {
        AnyHistory::Register(plain) => {
            push_certificate(alloc, lines, plain.history(), names, shown)
        }
        AnyHistory::Counter(plain) => push_certificate(alloc, lines, plain.history(), names, shown),
        AnyHistory::Set(plain) => push_certificate(alloc, lines, plain.history(), names, shown),
        AnyHistory::Queue(plain) => push_certificate(alloc, lines, plain.history(), names, shown),
        AnyHistory::Memory(history) => push_certificate(alloc, lines, history, names, shown),
        AnyHistory::Counters(history) => push_certificate(alloc, lines, history, names, shown),
        AnyHistory::Sets(history) => push_certificate(alloc, lines, history, names, shown),
        AnyHistory::Queues(history) => push_certificate(alloc, lines, history, names, shown),
    }
}

// Adds a line.
fn push_line(
    alloc: Global,
    lines: &mut Vec<String>,
    words: &'static str,
) -> Result<(), AllocError> {
    lines.push(String::from_str(alloc, words)?)?;
    Ok(())
}

// Adds what the certificate that was made does not explain.
fn push_certificate<O: Worded, N: Names>(
    alloc: Global,
    lines: &mut Vec<String>,
    history: &History<O>,
    names: &N,
    shown: Option<(OpId, Option<&Certificate>)>,
) -> Result<(), AllocError> {
    match shown {
        Some((op, certificate)) => {
            push_unexplained(alloc, lines, history, names, certificate, op)
        }
        None => push_line(alloc, lines, "No certificate was made."),
    }
}
