//! Orders that explain every read of a log.

ghost use Rattle.std.specs.Prelude.{◌≡◌, ◌⊎◌, Bool, IfErr, IfOk, List};
ghost use Rattle.model_objects.specs.Table.{IsRising};
ghost use Rattle.cert_check.specs.declared.criterion.Criterion.{Criterion};
ghost use Rattle.live_case_board.specs.declared.answer.Answer.{Answer};
ghost use Rattle.show_log_names.specs.Witnesses.{witness_for};
ghost use Rattle.log_events.specs.declared.event.Event.{Event as Happened};
ghost use Rattle.app_findings.specs.Findings.{answer_for, answer_of};
ghost use Rattle.app_logs.specs.Reports.{IsReportBy};
ghost use Rattle.app_logs.specs.Witnesses.{AreWitnesses};

use crate::forced_history::history_as_seen;
use crate::laws::a_yes_by_every_read_is_a_yes;
use app_engine::{Finding, Findings, RunError, SessionWork, report_on_long};
use log_choices::{Seen, WALKS, Walk, walked_choice};
use log_events::EventLog;
use model_objects::Table;
use show_log_names::{Witness, Witnesses};
use std::alloc::Global;

/// A log, with what is forced of its null reads.
#[derive(Clone, Copy)]
pub(crate) struct ForcedLog<'a> {
    pub log: &'a EventLog,
    pub in_time: bool,
    pub forced: &'a Table<Seen>,
}

/// What is known of orders that explain every read of a log, for the criteria with a yes in a report on its history by what is forced.
///
/// Each walk offers what every null read saw. A criterion has an order where the history by that is decided to meet it. Nothing rests on how
/// the walks choose.
///
/// Fails for want of memory alone. Each walk is one pass over the log and one report.
pub(crate) fn witnesses_of<W: SessionWork>(
    work: &W,
    alloc: Global,
    log: &ForcedLog<'_>,
    report: &Findings,
) -> Result<Witnesses, RunError>
    requires { W.can_work work.now }
    ensures found { IfOk result (AreWitnesses log.now.in_time log.now.log.now) }
    ensures error { IfErr result (λ e. e ≡ RunError.Memory) }
{
    let mut witnesses = wanted_by(report);
    for walk in WALKS {
        if witnesses.has(Witness::Missing) {
            witnesses = with_walk(work, alloc, log, walk, witnesses)?;
        }
    }
    Ok(witnesses)
}

/// Where no order is looked for.
pub(crate) fn none_wanted() -> Witnesses
    ensures { (in_time : Bool) (es : List Happened) → AreWitnesses in_time es result }
{
    Witnesses::unwanted()
}

// What is known before the first walk: orders are wanted where the answer is a yes.
#[tactic(auto, using(crate::proofs::WitnessLaws::none_found))]
fn wanted_by(report: &Findings) -> Witnesses
    ensures { (criterion : Criterion) → ¬ (witness_for result criterion ≡ Witness.Found) }
{
    Witnesses {
        cc: wanted_for(&report.cc),
        cm: wanted_for(&report.cm),
        ccv: wanted_for(&report.ccv),
    }
}

// The same for a criterion.
fn wanted_for(finding: &Finding) -> Witness
    ensures { ¬ (result ≡ Witness.Found) }
{
    match finding {
        Finding::Met(_) => Witness::Missing,
        Finding::Shown(_) | Finding::Present(_) | Finding::Unexplained(_, _) => Witness::Unwanted,
    }
}

// The same after one walk more.
fn with_walk<W: SessionWork>(
    work: &W,
    alloc: Global,
    log: &ForcedLog<'_>,
    walk: Walk,
    witnesses: Witnesses,
) -> Result<Witnesses, RunError>
    requires can_work { W.can_work work.now }
    requires known { AreWitnesses log.now.in_time log.now.log.now witnesses }
    ensures found { IfOk result (AreWitnesses log.now.in_time log.now.log.now) }
    ensures error { IfErr result (λ e. e ≡ RunError.Memory) }
{
    let Some(saw) = walked_choice(alloc, log.log, log.in_time, log.forced, walk)? else {
        return Ok(witnesses);
    };
    let report = report_by(work, alloc, log.log, &saw)?;
    a_yes_by_every_read_is_a_yes();
    let known = known_after(witnesses, &report);
    drop(report);
    Ok(known)
}

// What is known after a report by what every null read saw.
fn known_after(witnesses: Witnesses, report: &Findings) -> Witnesses
    ensures { (criterion : Criterion) → witness_for result criterion ≡ Witness.Found
        → (witness_for witnesses criterion ≡ Witness.Found) ⊎ (answer_for report.now criterion ≡ Answer.Yes) }
{
    Witnesses {
        cc: found_in(witnesses.cc, &report.cc),
        cm: found_in(witnesses.cm, &report.cm),
        ccv: found_in(witnesses.ccv, &report.ccv),
    }
}

// What is known for a criterion after a report by what every null read saw.
fn found_in(witness: Witness, finding: &Finding) -> Witness
    ensures { result ≡ Witness.Found → (witness ≡ Witness.Found) ⊎ (answer_of finding.now ≡ Answer.Yes) }
{
    match (witness, finding) {
        (Witness::Missing, Finding::Met(_)) => Witness::Found,
        _ => witness,
    }
}

// The report on the history of a log by what null reads saw.
fn report_by<W: SessionWork>(
    work: &W,
    alloc: Global,
    log: &EventLog,
    saw: &Table<Seen>,
) -> Result<Findings, RunError>
    requires can_work { W.can_work work.now }
    requires rising { IsRising saw.now }
    ensures report { IfOk result (IsReportBy log.now saw.now) }
    ensures error { IfErr result (λ e. e ≡ RunError.Memory) }
{
    let history = history_as_seen(alloc, log, saw)?;
    let report = report_on_long(work, alloc, &history)?;
    Ok(report)
}
