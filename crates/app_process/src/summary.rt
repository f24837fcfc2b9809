//! What is said of how much a run asks.

ghost use Rattle.std.specs.Prelude.{◌≡◌, Some, option_map};
ghost use Rattle.app_process.specs.Saying.{SaysSome};
ghost use Rattle.app_process.specs.Statuses.{status_after, wants_counts};

use crate::counting::RunCounts;
use crate::place::Place;
use crate::saying::Say;
use app_orders::Manner;
use std::sync::Wait;

// The status where fewer reads were answered than are wanted.
const FEW_READS_STATUS: u8 = 6;

/// Whether it is asked how much a run asks.
pub(crate) fn wants_counts(manner: &Manner) -> bool
    ensures { result ≡ wants_counts manner.now }
{
    manner.summary || manner.least_reads.is_some()
}

/// Says how much a run asks, where that is wanted, and returns the status: 6 in the place of 0 where fewer reads were answered than
/// are wanted, or where they can't be counted.
#[tactic(auto, using(crate::proofs::SaidLaws::says_some))]
pub(crate) fn status_by_counts<P: AllocGlobal + Eprint + Wait, E: Say>(
    place: &Place<'_, P>,
    errors: &mut E,
    manner: &Manner,
    counts: Option<RunCounts>,
    status: u8,
) -> u8
    ensures status { result ≡ status_after manner.now.least_reads (option_map (λ c. c.reads) counts) status }
    ensures said { SaysSome (E.said errors.old) (E.said errors.new) }
{
    match counts {
        Some(counts) => status_counted(place, errors, manner, counts, status),
        None => {
            place.say(
                errors,
                "the calls of this run were not counted: only those of a memory are",
            );
            status_by_reads(manner.least_reads, None, status)
        }
    }
}

// The same, where the calls were counted.
fn status_counted<P: AllocGlobal + Eprint + Wait, E: Say>(
    place: &Place<'_, P>,
    errors: &mut E,
    manner: &Manner,
    counts: RunCounts,
    status: u8,
) -> u8
    ensures status { result ≡ status_after manner.now.least_reads (Some counts.reads) status }
    ensures said { SaysSome (E.said errors.old) (E.said errors.new) }
{
    let mut counts = counts;
    let reads = counts.reads();
    say_counts(place, errors, manner.summary, &mut counts);
    say_few(place, errors, manner.least_reads, reads);
    status_by_reads(manner.least_reads, Some(reads), status)
}

// Says how much a run asks, where that is wanted.
#[tactic(auto, using(crate::proofs::SaidLaws::says_no_more, crate::proofs::SaidLaws::says_some))]
fn say_counts<P: AllocGlobal + Eprint + Wait, E: Say>(
    place: &Place<'_, P>,
    errors: &mut E,
    is_wanted: bool,
    counts: &mut RunCounts,
)
    ensures { SaysSome (E.said errors.old) (E.said errors.new) }
{
    if is_wanted && let Ok(line) = counts.line(place.rt.alloc()) {
        place.say(errors, line.as_str());
    }
}

// Says that too few reads were answered, where they are.
#[tactic(auto, using(crate::proofs::SaidLaws::says_no_more, crate::proofs::SaidLaws::says_some))]
fn say_few<P: AllocGlobal + Eprint + Wait, E: Say>(
    place: &Place<'_, P>,
    errors: &mut E,
    least: Option<u32>,
    reads: u64,
)
    ensures { SaysSome (E.said errors.old) (E.said errors.new) }
{
    let alloc = place.rt.alloc();
    if let Some(least) = least
        && reads < least as u64
        && let Ok(line) = format!(in alloc;
            "reads answered {reads}, where at least {least} are wanted"
        )
    {
        place.say(errors, line.as_str());
    }
}

// The status where so many reads are wanted and so many were answered.
fn status_by_reads(least: Option<u32>, reads: Option<u64>, status: u8) -> u8
    ensures { result ≡ status_after least reads status }
{
    let has_few = match (least, reads) {
        (None, _) => false,
        (Some(_), None) => true,
        (Some(least), Some(reads)) => reads < least as u64,
    };
    if has_few && status == 0 {
        FEW_READS_STATUS
    } else {
        status
    }
}
