//! The numbers that words write.

ghost use Rattle.std.specs.Prelude.{◌<◌, ◌≤◌, ℕ, MatchOption};
ghost use Rattle.judge_workers.specs.Workers.{AreWorkers};
ghost use Rattle.app_command_line.specs.Numerals.{IsEvery, IsLeast, IsListed, Writes};

use app_orders::{MAX_EVERY, MAX_LEAST_READS, MAX_LISTED, MAX_SEALS};
use judge_workers::Workers;
use model_history::MAX_SESSIONS;

/// The number of workers that a text writes.
pub fn workers_in(text: &str) -> Option<Workers>
    ensures { MatchOption result ((n : ℕ) → AreWorkers n → ¬ Writes text.now n) (Writes text.now) }
{
    match text.parse::<usize>() {
        Ok(count) => Workers::of(count),
        Err(_) => None,
    }
}

/// The number of seals that a text writes.
pub fn seals_in(text: &str) -> Option<u8>
    ensures { MatchOption result ((n : ℕ) → n ≤ MAX_SEALS → ¬ Writes text.now n) (λ n. Writes text.now n × (n ≤ MAX_SEALS)) }
{
    match text.parse::<u8>() {
        Ok(seals) if seals <= MAX_SEALS => Some(seals),
        _ => None,
    }
}

/// The number of a session that a text writes.
pub fn session_in(text: &str) -> Option<usize>
    ensures { MatchOption result ((s : ℕ) → s < MAX_SESSIONS → ¬ Writes text.now s) (λ s. Writes text.now s × (s < MAX_SESSIONS)) }
{
    match text.parse::<usize>() {
        Ok(session) if session < MAX_SESSIONS => Some(session),
        _ => None,
    }
}

/// The number of reads to list that a text writes.
pub fn listed_in(text: &str) -> Option<u32>
    ensures { MatchOption result ((n : ℕ) → IsListed n → ¬ Writes text.now n) (λ n. Writes text.now n × IsListed n) }
{
    match text.parse::<u32>() {
        Ok(most) if 1 <= most && most <= MAX_LISTED => Some(most),
        _ => None,
    }
}

/// The number of events after which a log is judged that a text writes.
pub fn every_in(text: &str) -> Option<u32>
    ensures { MatchOption result ((n : ℕ) → IsEvery n → ¬ Writes text.now n) (λ n. Writes text.now n × IsEvery n) }
{
    match text.parse::<u32>() {
        Ok(every) if 1 <= every && every <= MAX_EVERY => Some(every),
        _ => None,
    }
}

/// The number of reads that are to be answered that a text writes.
pub fn reads_in(text: &str) -> Option<u32>
    ensures { MatchOption result ((n : ℕ) → IsLeast n → ¬ Writes text.now n) (λ n. Writes text.now n × IsLeast n) }
{
    match text.parse::<u32>() {
        Ok(least) if 1 <= least && least <= MAX_LEAST_READS => Some(least),
        _ => None,
    }
}
