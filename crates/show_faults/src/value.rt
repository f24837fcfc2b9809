//! Faults as JSON.

ghost use Rattle.std.specs.Prelude.{◌≡◌, ◌∷◌, [], IfOk};
ghost use Rattle.serde_json.specs.View.{view};
ghost use Rattle.json_histories.specs.Reads.{worded};
ghost use Rattle.show_words.specs.Guarantees.{guarantee_name};
ghost use Rattle.show_faults.specs.FaultsForm.{broken_form, count_form, counts_form, faults_form};
ghost use Rattle.show_faults.specs.FaultsForm.{guarantee_form, guarantees_form, name_form};

use crate::broken::{Breaks, Broken, GuaranteeCounts};
use crate::counts::{FaultCounts, SessionFaults};
use crate::fault::Fault;
use crate::tally::Faults;
use pattern_check::Kind;
use pattern_json::{Written, list_value, op_value, worded_one, worded_two};
use serde_json::Value;
use show_words::Guarantee;
use std::alloc::{AllocError, Global};

/// The form of faults: a list of the counts by kind, of the counts of each session that has a fault, of the listed faults, and of what they
/// break.
///
/// It doesn't say whether the causal order has a cycle. Fails for want of memory alone. O(n) for n listed faults and sessions.
pub fn faults_value(alloc: Global, faults: &Faults) -> Result<Value, AllocError>
    ensures form { IfOk result (λ value.
        view value ≡ faults_form faults.now.counts faults.now.by_session.items faults.now.listed.items faults.now.broken) }
{
    let counts = counts_value(alloc, faults.counts)?;
    let by_session = list_value(alloc, &faults.by_session)?;
    let mut values = Vec::new(alloc);
    values.push(counts)?;
    values.push(by_session)?;
    values.push(list_value(alloc, &faults.listed)?)?;
    values.push(broken_value(alloc, &faults.broken)?)?;
    Ok(Value::Array(values))
}

/// The form of what is broken.
fn broken_value(alloc: Global, broken: &Broken) -> Result<Value, AllocError>
    ensures { IfOk result (λ value. view value ≡ broken_form broken.now) }
{
    let mut values = Vec::new(alloc);
    values.push(guarantees_value(alloc, broken.counts)?)?;
    values.push(list_value(alloc, &broken.listed)?)?;
    Ok(Value::Array(values))
}

/// The form of how many reads break each guarantee.
fn guarantees_value(alloc: Global, counts: GuaranteeCounts) -> Result<Value, AllocError>
    ensures { IfOk result (λ value. view value ≡ guarantees_form counts) }
{
    let mut values = Vec::new(alloc);
    values.push(guarantee_value(alloc, Guarantee::ReadYourWrites, counts.read_your_writes)?)?;
    values.push(guarantee_value(alloc, Guarantee::MonotonicReads, counts.monotonic_reads)?)?;
    values.push(guarantee_value(alloc, Guarantee::MonotonicWrites, counts.monotonic_writes)?)?;
    values.push(guarantee_value(
        alloc,
        Guarantee::WritesFollowReads,
        counts.writes_follow_reads,
    )?)?;
    values.push(guarantee_value(alloc, Guarantee::CausalOrder, counts.causal_order)?)?;
    Ok(Value::Array(values))
}

/// The form of how many reads break a guarantee.
fn guarantee_value(alloc: Global, guarantee: Guarantee, count: u32) -> Result<Value, AllocError>
    ensures { IfOk result (λ value. view value ≡ guarantee_form guarantee count) }
{
    worded_one(alloc, guarantee.name(), Value::from(u64::from(count)))
}

impl Written for Breaks {
    ghost use Rattle.show_faults.specs.FaultsForm.{breaks_form};

    ghost form = { breaks_form };

    fn value(&self, alloc: Global) -> Result<Value, AllocError> {
        name_value(alloc, self.guarantee)
    }
}

/// The form of what a fault breaks.
fn name_value(alloc: Global, guarantee: Option<Guarantee>) -> Result<Value, AllocError>
    ensures { IfOk result (λ value. view value ≡ name_form guarantee) }
{
    match guarantee {
        Some(guarantee) => Ok(Value::String(String::from_str(alloc, guarantee.name())?)),
        None => Ok(Value::Null),
    }
}

/// The form of counts.
fn counts_value(alloc: Global, counts: FaultCounts) -> Result<Value, AllocError>
    ensures { IfOk result (λ value. view value ≡ counts_form counts) }
{
    let thin_air = count_value(alloc, Kind::ThinAirRead, counts.thin_air)?;
    let start = count_value(alloc, Kind::WriteCOInitRead, counts.start)?;
    let mut values = Vec::new(alloc);
    values.push(thin_air)?;
    values.push(start)?;
    values.push(count_value(alloc, Kind::WriteCORead, counts.read)?)?;
    Ok(Value::Array(values))
}

/// The form of a kind's count.
fn count_value(alloc: Global, kind: Kind, count: u32) -> Result<Value, AllocError>
    ensures { IfOk result (λ value. view value ≡ count_form kind count) }
{
    worded_one(alloc, kind.name(), Value::from(u64::from(count)))
}

impl Written for SessionFaults {
    ghost use Rattle.show_faults.specs.FaultsForm.{session_form};

    ghost form = { session_form };

    fn value(&self, alloc: Global) -> Result<Value, AllocError> {
        let mut values = Vec::new(alloc);
        values.push(Value::from(u64::from(self.session)))?;
        values.push(counts_value(alloc, self.counts)?)?;
        Ok(Value::Array(values))
    }
}

impl Written for Fault {
    ghost use Rattle.show_faults.specs.FaultsForm.{fault_form};

    ghost form = { fault_form };

    fn value(&self, alloc: Global) -> Result<Value, AllocError> {
        let kind = self.kind().name();
        let read = op_value(alloc, self.read())?;
        match *self {
            Fault::ThinAirRead { .. } => worded_one(alloc, kind, read),
            Fault::WriteCOInitRead { missed, .. } => {
                worded_two(alloc, kind, read, op_value(alloc, missed)?)
            }
            Fault::WriteCORead { source, missed, .. } => {
                let source = op_value(alloc, source)?;
                worded_three(alloc, kind, read, source, op_value(alloc, missed)?)
            }
        }
    }
}

/// The list of a word and three things.
fn worded_three(
    alloc: Global,
    word: &str,
    first: Value,
    second: Value,
    third: Value,
) -> Result<Value, AllocError>
    ensures { IfOk result (λ value. view value ≡ worded word.now (view first ∷ view second ∷ view third ∷ [])) }
{
    let mut values = Vec::new(alloc);
    values.push(Value::String(String::from_str(alloc, word)?))?;
    values.push(first)?;
    values.push(second)?;
    values.push(third)?;
    Ok(Value::Array(values))
}
