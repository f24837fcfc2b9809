//! Judges the history of a memory on standard input: the lines of `causal_judge judge`, and nothing else.
//!
//! It is for a first verdict from source, since `rt try` builds it in a fraction of the time that `causal_judge` takes. Where
//! values are not distinct its lines are `unknown`: it makes no certificate, which might show a `yes`.
#![tactic(auto)]

ghost use Rattle.std.specs.Prelude.{IfOk};
ghost use Rattle.cert_check.specs.declared.criterion.Criterion.{Criterion as AnyCriterion};
ghost use Rattle.judge_decision.specs.Decisions.{IsDecided, decision_for};
ghost use Rattle.app_memory_judge.specs.Verdicts.{AreDecidedOf};

use anyhow::{Result, bail};
use cert_check::Criterion;
use json_histories::{AnyHistory, History, read_history};
use judge_decision::{Decision, Decisions, decide_all};
use model_objects::Memory;
use order_memory::IndexedMemory;
use pattern_check::Kind;
use std::alloc::{AllocError, Global};
use std::io::Read;

fn main(rt: HostRuntime) -> Result<()> {
    let alloc = rt.alloc();
    let mut text = Vec::new(alloc);
    rt.stdin().read_to_end(&mut text)?;
    let decisions = decisions_of(alloc, text.as_slice())?;
    let written = write_lines(&rt, &decisions);
    drop(decisions);
    written
}

/// What is decided of the memory history whose form is the text.
fn decisions_of(alloc: Global, text: &[u8]) -> Result<Decisions>
    ensures decided { IfOk result (AreDecidedOf text.now) }
{
    let history = match read_history(alloc, text) {
        Ok(AnyHistory::Memory(history)) => history,
        Ok(other) => {
            other.discard();
            bail!("no history of a memory: causal_judge judges all objects")
        }
        Err(refusal) => bail!("refused {}", refusal.number()),
    };
    let decisions = decisions_on(alloc, &history);
    drop(history);
    Ok(decisions?)
}

/// What is decided of a history of a memory.
fn decisions_on(alloc: Global, history: &History<Memory>) -> Result<Decisions, AllocError>
    ensures { IfOk result (λ all. (criterion : AnyCriterion) → IsDecided history.now criterion (decision_for all criterion)) }
{
    let memory = IndexedMemory::of(alloc, history)?;
    let decisions = decide_all(alloc, &memory);
    drop(memory);
    decisions
}

/// Writes the lines of all criteria.
fn write_lines<P: Print>(rt: &P, decisions: &Decisions) -> Result<()> {
    write_line(rt, Criterion::Cc, &decisions.cc)?;
    write_line(rt, Criterion::Cm, &decisions.cm)?;
    write_line(rt, Criterion::Ccv, &decisions.ccv)
}

/// Writes the line of a criterion.
fn write_line<P: Print>(rt: &P, criterion: Criterion, decision: &Decision) -> Result<()> {
    let name = criterion.name();
    match decision {
        Decision::Meets => println!(rt; "{name} yes")?,
        Decision::Excluded(pattern) => write_no(rt, name, pattern.kind())?,
        Decision::ExcludedBy(kind) => write_no(rt, name, *kind)?,
        Decision::Open => println!(rt; "{name} unknown")?,
    }
    Ok(())
}

/// Writes the line of a criterion that is not met, with the first kind that excludes it.
fn write_no<P: Print>(rt: &P, name: &str, kind: Kind) -> Result<()> {
    let kind = kind.name();
    println!(rt; "{name} no {kind}")?;
    Ok(())
}
