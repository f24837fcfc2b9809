//! The lists that name the criteria that are expected to be met.

ghost use Rattle.std.specs.Prelude.{◌≡◌, MatchOption};
ghost use Rattle.app_command_line.specs.Expected.{AddEach, AddsName, Lists, and_expected, expects, parts, with_expected};

use app_orders::Expected;
use cert_check::Criterion;

/// The criteria that a list names: one or more of `cc`, `cm` and `ccv`, each at most once, in any order, joined by commas.
pub fn expected_in(list: &str) -> Option<Expected>
    ensures { MatchOption result ((expected : Expected) → ¬ Lists list.now expected) (Lists list.now) }
{
    expected_after(Expected::nothing(), list)
}

// What is expected once each criterion that the list names is added; none where a part is no name, or one is added twice.
fn expected_after(before: Expected, list: &str) -> Option<Expected>
    ensures { MatchOption result ((after : Expected) → ¬ AddEach before (parts list.now) after)
        (AddEach before (parts list.now)) }
{
    match list.split_once(',') {
        Some((name, further)) => match and_name(before, name) {
            Some(between) => expected_after(between, further),
            None => None,
        },
        None => and_name(before, list),
    }
}

// What is expected with the criterion of this name; none where no criterion has the name, or that criterion was expected before.
#[tactic(auto, using(crate::proofs::Names::name_added, crate::proofs::Names::no_name_added))]
fn and_name(before: Expected, name: &str) -> Option<Expected>
    ensures { MatchOption result ((after : Expected) → ¬ AddsName before name.now after) (AddsName before name.now) }
{
    and_also(before, Criterion::named(name)?)
}

// What is expected with one criterion more; none where it was expected before.
fn and_also(before: Expected, criterion: Criterion) -> Option<Expected>
    ensures { result ≡ and_expected before criterion }
{
    if expects(before, criterion) {
        None
    } else {
        Some(with(before, criterion))
    }
}

fn expects(expected: Expected, criterion: Criterion) -> bool
    ensures { result ≡ expects expected criterion }
{
    match criterion {
        Criterion::Cc => expected.cc,
        Criterion::Cm => expected.cm,
        Criterion::Ccv => expected.ccv,
    }
}

fn with(before: Expected, criterion: Criterion) -> Expected
    ensures { result ≡ with_expected before criterion }
{
    match criterion {
        Criterion::Cc => Expected { cc: true, ..before },
        Criterion::Cm => Expected { cm: true, ..before },
        Criterion::Ccv => Expected {
            ccv: true,
            ..before
        },
    }
}
