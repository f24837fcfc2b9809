//! The numbers that nobody claimed.

ghost use Rattle.std.specs.Prelude.{◌≡◌, ◌↔◌, ◌⊎◌, ◌<◌, ℕ, false, length, slice_index_or, IfOk, IsTrue};
ghost use Rattle.judge_workers.specs.Numbers.{HasNumber};

use std::alloc::{AllocError, Global};

/// For each number below a count, whether a list has it.
fn are_there(alloc: Global, claimed: &[usize], count: usize) -> Result<Vec<bool>, AllocError>
    ensures size { IfOk result (λ are. length are.items ≡ count) }
    ensures each { IfOk result (λ are. (n : ℕ) → n < count
        → IsTrue (slice_index_or are.items n false) ↔ HasNumber claimed.now n) }
{
    let mut are = vec![in alloc; false; count]?;
    for i in 0..claimed.len() {
        if claimed[i] < count {
            are[claimed[i]] = true;
        }
    }
    Ok(are)
}

/// The numbers below a count that are not among the claimed ones, from the least on.
///
/// Fails for want of memory alone. O(n) for a count and a list of n.
pub fn unclaimed(alloc: Global, claimed: &[usize], count: usize) -> Result<Vec<usize>, AllocError>
    ensures below { IfOk result (λ rest. (n : ℕ) → HasNumber rest.items n → n < count) }
    ensures apart { IfOk result (λ rest. (n : ℕ) → HasNumber rest.items n → ¬ HasNumber claimed.now n) }
    ensures all { IfOk result (λ rest. (n : ℕ) → n < count → HasNumber claimed.now n ⊎ HasNumber rest.items n) }
{
    let are_there = are_there(alloc, claimed, count)?;
    let mut rest = Vec::new(alloc);
    for number in 0..count {
        if !are_there[number] {
            rest.push(number)?;
        }
    }
    Ok(rest)
}
