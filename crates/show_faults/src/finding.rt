//! The search for all reads that show a fault.

ghost use Rattle.std.specs.Prelude.{◌≡◌, ◌↔◌, ◌+◌, ◌<◌, ◌≤◌, length, IfOk, IsTrue, OnOk};
ghost use Rattle.model_history.specs.declared.op_id.OpId.{OpId as Operation};
ghost use Rattle.model_history.specs.History.{IsOp, number};
ghost use Rattle.order_memory.specs.SourceOrder.{IsCyclic};
ghost use Rattle.judge_memory.specs.Steps.{many};
ghost use Rattle.show_faults.specs.Found.{IsFoundAt, IsMissedAt, IsTallyBelow};
ghost use Rattle.show_faults.specs.Noted.{AreLatestMissed};
ghost use Rattle.show_faults.specs.Tallies.{IsTallyOf};

use crate::broken::broken_guarantees;
use crate::fault::Fault;
use crate::missed::{missed_writes, nothing_missed};
use crate::tally::Faults;
use judge_memory::{LongIndex, Part, causal_order};
use model_history::OpId;
use show_words::Names;
use std::alloc::{AllocError, Global};

/// The reads that show a fault: for the first ones, at most so many, what they show and which write they missed; for all, how many there
/// are of each kind and in each session, and how many break each guarantee.
///
/// Among the writes that a read missed, it names one that no other is after in the causal order. If that order has a cycle, it counts
/// only reads of values that nobody wrote. The names say where a session goes on. Fails for want of memory alone. O(n (k + log n)) for n
/// operations of k sessions. It takes 28 bytes an operation, 8 a session and 4 a variable.
pub fn find_faults<N: Names>(
    alloc: Global,
    index: &LongIndex,
    names: &N,
    most: usize,
) -> Result<Faults, AllocError>
    ensures tally { IfOk result (λ f. IsTallyOf index.now.history most f.listed.items f.counts f.by_session.items) }
    ensures few_broken { IfOk result (λ f. length f.broken.listed.items ≤ most) }
    ensures sessions { IfOk result (λ f. f.sessions ≡ length index.now.history.1) }
    ensures cycle { IfOk result (λ f. IsTrue f.has_cycle ↔ IsCyclic index.now.history) }
{
    match causal_order(alloc, index)? {
        Some(order) => {
            let missed = missed_writes(alloc, index, &order)?;
            tally(alloc, index, names, &missed, most, false)
        }
        None => {
            let missed = nothing_missed(alloc, index)?;
            tally(alloc, index, names, &missed, most, true)
        }
    }
}

/// Lists and counts the faults, by the latest writes that reads missed.
fn tally<N: Names>(
    alloc: Global,
    index: &LongIndex,
    names: &N,
    missed: &[u32],
    most: usize,
    has_cycle: bool,
) -> Result<Faults, AllocError>
    requires { AreLatestMissed index.now.history missed.now }
    ensures tally { IfOk result (λ f. IsTallyOf index.now.history most f.listed.items f.counts f.by_session.items) }
    ensures few_broken { IfOk result (λ f. length f.broken.listed.items ≤ most) }
    ensures sessions { IfOk result (λ f. f.sessions ≡ length index.now.history.1) }
    ensures cycle { IfOk result (λ f. f.has_cycle ≡ has_cycle) }
{
    let broken = broken_guarantees(alloc, index, names, missed, most)?;
    let mut faults = Faults::none(alloc, broken, index.sessions(), has_cycle);
    for operation in 0..index.operations() {
        add_fault(index, missed, operation, most, &mut faults)?;
    }
    Ok(faults)
}

/// Lists and counts the fault of the next operation, if it shows one.
fn add_fault(
    index: &LongIndex,
    missed: &[u32],
    operation: u32,
    most: usize,
    faults: &mut Faults,
) -> Result<(), AllocError>
    requires operation { operation < many index.now.history }
    requires missed { AreLatestMissed index.now.history missed.now }
    requires few { operation < 4_294_967_294 }
    requires few_sessions { length index.now.history.1 < 4_294_967_296 }
    requires tally { IsTallyBelow index.now.history operation most faults.old.listed.items faults.old.counts faults.old.by_session.items }
    ensures tally { OnOk result (IsTallyBelow index.now.history (operation + 1) most faults.new.listed.items faults.new.counts
        faults.new.by_session.items) }
    ensures broken { faults.new.broken ≡ faults.old.broken }
    ensures sessions { faults.new.sessions ≡ faults.old.sessions }
    ensures cycle { faults.new.has_cycle ≡ faults.old.has_cycle }
{
    index.value_is_indexed();
    match fault_of(index, missed, operation) {
        Some(fault) => {
            faults.add(fault, most)?;
            Ok(())
        }
        None => Ok(()),
    }
}

/// The fault that an operation shows, if it does.
fn fault_of(index: &LongIndex, missed: &[u32], operation: u32) -> Option<Fault>
    requires operation { operation < many index.now.history }
    requires missed { AreLatestMissed index.now.history missed.now }
    ensures { IsFoundAt index.now.history operation result }
{
    index.value_is_indexed();
    let read = operation_of(index, operation);
    if let Part::ThinAirRead = index.part(operation) {
        return Some(Fault::ThinAirRead { read });
    }
    let write = missed_by(index, missed, operation)?;
    match index.source(operation) {
        Some(source) => Some(Fault::WriteCORead {
            read,
            source: operation_of(index, source),
            missed: write,
        }),
        None => Some(Fault::WriteCOInitRead {
            read,
            missed: write,
        }),
    }
}

/// The latest write that an operation missed, if it missed one.
fn missed_by(index: &LongIndex, missed: &[u32], operation: u32) -> Option<OpId>
    requires operation { operation < many index.now.history }
    requires missed { AreLatestMissed index.now.history missed.now }
    ensures { IsMissedAt index.now.history operation result }
{
    let after = missed[operation as usize];
    if after == 0 {
        return None;
    }
    Some(operation_of(index, after - 1))
}

/// The operation that has a number.
fn operation_of(index: &LongIndex, operation: u32) -> OpId
    requires { operation < many index.now.history }
    ensures { (o : Operation) → IsOp index.now.history o → number index.now.history o ≡ operation → result ≡ o }
{
    let session = index.session_of(operation);
    OpId::at(
        session as usize,
        (operation - index.start(session)) as usize,
    )
}
