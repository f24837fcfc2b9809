//! Counts that are at most others.

ghost use Rattle.std.specs.Prelude.{◌↔◌, ◌≤◌, ℕ, IsTrue, slice_index_or};

/// Whether each of some counts is at most the one at its place, where a place past the end has 0.
///
/// O(k) for k counts. If both lists have the same length, the comparison never ends early, so that several counts are compared at
/// once.
pub fn is_at_most(counts: &[u16], bounds: &[u16]) -> bool
    ensures { IsTrue result ↔ ((s : ℕ) → slice_index_or counts.now s 0 ≤ slice_index_or bounds.now s 0) }
{
    if counts.len() != bounds.len() {
        return is_at_most_by_place(counts, bounds);
    }
    let mut all = true;
    for place in 0..counts.len() {
        all &= counts[place] <= bounds[place];
    }
    all
}

/// The same for any two lists.
fn is_at_most_by_place(counts: &[u16], bounds: &[u16]) -> bool
    ensures { IsTrue result ↔ ((s : ℕ) → slice_index_or counts.now s 0 ≤ slice_index_or bounds.now s 0) }
{
    for (session, count) in counts.iter().enumerate() {
        if *count > bounds.get(session).copied().unwrap_or(0) {
            return false;
        }
    }
    true
}
