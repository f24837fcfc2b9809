//! Faults in words, which nobody trusts.

ghost use Rattle.std.specs.Prelude.{◌≡◌, ◌+◌, ◌≤◌, length, IfOk, OnOk};

use crate::broken::GuaranteeCounts;
use crate::counts::SessionFaults;
use crate::fault::Fault;
use crate::tally::Faults;
use judge_memory::{LongEntry, LongHistory, LongIndex};
use model_history::OpId;
use model_objects::{RegisterCall, RegisterRet};
use pattern_check::Kind;
use show_words::{Guarantee, Names, read_of};
use std::alloc::{AllocError, Global};

/// The most sessions that have a line each.
const SHOWN_SESSIONS: usize = 16;

/// The line of a fault of the indexed history: what the read returned, which write it missed, the kind, and which guarantee it breaks.
///
/// `2.117 reads 41 from variable 3 (written by 0.12), after 5.80 wrote 63 to it: WriteCORead, breaks monotonic reads`. It says less about
/// operations that the history doesn't have. Fails for want of memory alone. O(1).
pub fn fault_line<N: Names>(
    alloc: Global,
    index: &LongIndex,
    names: &N,
    fault: &Fault,
    breaks: Option<Guarantee>,
) -> Result<String, AllocError> {
    let h = index.history();
    let kind = kind_words(alloc, fault.kind(), breaks)?;
    let Some((key, value)) = known_read(h, fault.read()) else {
        let read = names.operation(alloc, fault.read())?;
        return format!(in alloc; "{read}: {kind}");
    };
    let read = read_of(alloc, names, fault.read(), key, value)?;
    match *fault {
        Fault::ThinAirRead { .. } => {
            let why = names.unwritten_words(key, value);
            format!(in alloc; "{read}, {why}: {kind}")
        }
        Fault::WriteCOInitRead { missed, .. } => {
            let missed = missed_words(alloc, h, names, missed)?;
            format!(in alloc; "{read} (its initial value), {missed}: {kind}")
        }
        Fault::WriteCORead { source, missed, .. } => {
            let source = names.operation(alloc, source)?;
            let missed = missed_words(alloc, h, names, missed)?;
            format!(in alloc; "{read} (written by {source}), {missed}: {kind}")
        }
    }
}

/// The name of a kind, and which guarantee is broken.
fn kind_words(alloc: Global, kind: Kind, breaks: Option<Guarantee>) -> Result<String, AllocError> {
    let kind = kind.name();
    match breaks {
        Some(guarantee) => {
            let guarantee = guarantee.name();
            format!(in alloc; "{kind}, breaks {guarantee}")
        }
        None => String::from_str(alloc, kind),
    }
}

/// The operation of a history, if the history has it.
fn entry_of(h: &LongHistory, op: OpId) -> Option<LongEntry> {
    let session = op.session_place();
    if session >= h.sessions() {
        return None;
    }
    h.session(session).get(op.place()).copied()
}

/// The variable and the value of a known read.
fn known_read(h: &LongHistory, op: OpId) -> Option<(u32, u64)> {
    let (call, ret) = entry_of(h, op)?;
    match (call.call, ret) {
        (RegisterCall::Read, Some(RegisterRet::Value(value))) => Some((call.key, value)),
        _ => None,
    }
}

/// What a missed write wrote.
fn missed_words<N: Names>(
    alloc: Global,
    h: &LongHistory,
    names: &N,
    op: OpId,
) -> Result<String, AllocError> {
    let name = names.operation(alloc, op)?;
    match known_write(h, op) {
        Some((key, value)) => {
            let written = names.write_words(alloc, key, value)?;
            format!(in alloc; "after {name} {written}")
        }
        None => format!(in alloc; "after {name}"),
    }
}

/// The variable and the value of a write.
fn known_write(h: &LongHistory, op: OpId) -> Option<(u32, u64)> {
    let (call, _) = entry_of(h, op)?;
    match call.call {
        RegisterCall::Write(value) => Some((call.key, value)),
        RegisterCall::Read => None,
    }
}

/// The lines of the counts: one for each kind that occurs, then one for each guarantee that is broken, and then one for each session that
/// has a fault, those with the most first, at most sixteen of them and how many more there are: at most twenty-five lines.
///
/// `WriteCORead: 117 reads in 3 of 64 sessions`, `monotonic reads: broken by 117 reads`, `session 2: 90 reads`. Fails for want
/// of memory alone. O(s log s) for s sessions that have a fault.
pub fn count_lines<N: Names>(
    alloc: Global,
    names: &N,
    faults: &Faults,
) -> Result<Vec<String>, AllocError>
    ensures { IfOk result (λ lines. length lines.items ≤ 25) }
{
    let mut lines = Vec::new(alloc);
    push_kind_line(alloc, names, faults, Kind::ThinAirRead, &mut lines)?;
    push_kind_line(alloc, names, faults, Kind::WriteCOInitRead, &mut lines)?;
    push_kind_line(alloc, names, faults, Kind::WriteCORead, &mut lines)?;
    push_guarantee_lines(alloc, faults.broken.counts, &mut lines)?;
    push_session_lines(alloc, names, &faults.by_session, &mut lines)?;
    Ok(lines)
}

/// Pushes the line of a kind, if it occurs.
fn push_kind_line<N: Names>(
    alloc: Global,
    names: &N,
    faults: &Faults,
    kind: Kind,
    lines: &mut Vec<String>,
) -> Result<(), AllocError>
    ensures { OnOk result (length lines.new.items ≤ length lines.old.items + 1) }
{
    let count = faults.counts.of(kind);
    if count > 0 {
        lines.push(kind_line(alloc, names, faults, kind, count)?)?;
    }
    Ok(())
}

/// The line of a kind.
fn kind_line<N: Names>(
    alloc: Global,
    names: &N,
    faults: &Faults,
    kind: Kind,
    count: u32,
) -> Result<String, AllocError> {
    let sessions = faults
        .by_session
        .iter()
        .filter(|row| row.counts.of(kind) > 0)
        .count();
    let name = kind.name();
    let all = names.sessions_words(alloc, faults.sessions as usize)?;
    let reads = reads_words(alloc, u64::from(count))?;
    format!(in alloc; "{name}: {reads} in {sessions} of {all}")
}

/// Pushes the lines of the guarantees that are broken.
fn push_guarantee_lines(
    alloc: Global,
    counts: GuaranteeCounts,
    lines: &mut Vec<String>,
) -> Result<(), AllocError>
    ensures { OnOk result (length lines.new.items ≤ length lines.old.items + 5) }
{
    push_guarantee_line(alloc, counts, Guarantee::ReadYourWrites, lines)?;
    push_guarantee_line(alloc, counts, Guarantee::MonotonicReads, lines)?;
    push_guarantee_line(alloc, counts, Guarantee::MonotonicWrites, lines)?;
    push_guarantee_line(alloc, counts, Guarantee::WritesFollowReads, lines)?;
    push_guarantee_line(alloc, counts, Guarantee::CausalOrder, lines)
}

/// Pushes the line of a guarantee, if it is broken.
fn push_guarantee_line(
    alloc: Global,
    counts: GuaranteeCounts,
    guarantee: Guarantee,
    lines: &mut Vec<String>,
) -> Result<(), AllocError>
    ensures { OnOk result (length lines.new.items ≤ length lines.old.items + 1) }
{
    let count = counts.of(guarantee);
    if count > 0 {
        let name = guarantee.name();
        let reads = reads_words(alloc, u64::from(count))?;
        lines.push(format!(in alloc; "{name}: broken by {reads}")?)?;
    }
    Ok(())
}

/// So many reads.
fn reads_words(alloc: Global, count: u64) -> Result<String, AllocError> {
    let ending = if count == 1 { "" } else { "s" };
    format!(in alloc; "{count} read{ending}")
}

/// Pushes the lines of sessions.
fn push_session_lines<N: Names>(
    alloc: Global,
    names: &N,
    rows: &[SessionFaults],
    lines: &mut Vec<String>,
) -> Result<(), AllocError>
    ensures { OnOk result (length lines.new.items ≤ length lines.old.items + 17) }
{
    let mut sorted = Vec::from_slice(alloc, rows)?;
    sorted.sort_unstable_by_key(|row| (u64::MAX - row.counts.total(), row.session));
    let sorted = sorted.as_slice();
    if sorted.len() > SHOWN_SESSIONS {
        let more = sorted.len() - SHOWN_SESSIONS;
        push_rows(alloc, names, &sorted[..SHOWN_SESSIONS], lines)?;
        let one = names.session_word();
        let ending = if more == 1 { "" } else { "s" };
        lines.push(format!(in alloc; "and {more} more {one}{ending}")?)?;
        Ok(())
    } else {
        push_rows(alloc, names, sorted, lines)
    }
}

/// Pushes a line for each of these sessions.
fn push_rows<N: Names>(
    alloc: Global,
    names: &N,
    rows: &[SessionFaults],
    lines: &mut Vec<String>,
) -> Result<(), AllocError>
    ensures { OnOk result (length lines.new.items ≤ length lines.old.items + length rows.now) }
{
    for row in rows {
        let session = names.session(alloc, OpId::at(row.session as usize, 0))?;
        let reads = reads_words(alloc, row.counts.total())?;
        lines.push(format!(in alloc; "{session}: {reads}")?)?;
    }
    Ok(())
}
