//! Numbers in arrays.

ghost use Rattle.std.specs.Prelude.{◌≡◌, ◌≢◌, ◌<◌, ◌≤◌, ◌+◌, ℕ, length, max, slice_index_or};

use judge_memory::MAX_NUMBERS;

/// Raises the number at a place to another one, if it is lower than that.
pub(crate) fn raise(numbers: &mut Vec<u32>, at: u32, number: u32)
    requires { at < length numbers.old.items }
    ensures size { length numbers.new.items ≡ length numbers.old.items }
    ensures raised { slice_index_or numbers.new.items at 0 ≡ max (slice_index_or numbers.old.items at 0) number }
    ensures others { (n : ℕ) → n ≢ at → slice_index_or numbers.new.items n 0 ≡ slice_index_or numbers.old.items n 0 }
{
    let at = at as usize;
    if numbers[at] < number {
        numbers[at] = number;
    }
}

/// Adds one to the number at a place.
pub(crate) fn add_one(numbers: &mut Vec<u32>, at: u32)
    requires inside { at < length numbers.old.items }
    requires small { slice_index_or numbers.old.items at 0 ≤ MAX_NUMBERS }
    ensures size { length numbers.new.items ≡ length numbers.old.items }
    ensures more { slice_index_or numbers.new.items at 0 ≡ slice_index_or numbers.old.items at 0 + 1 }
    ensures others { (n : ℕ) → n ≢ at → slice_index_or numbers.new.items n 0 ≡ slice_index_or numbers.old.items n 0 }
{
    numbers[at as usize] += 1;
}

/// Subtracts one from the number at a place.
pub(crate) fn take_one(numbers: &mut Vec<u32>, at: u32)
    requires inside { at < length numbers.old.items }
    requires some { slice_index_or numbers.old.items at 0 ≢ 0 }
    ensures size { length numbers.new.items ≡ length numbers.old.items }
    ensures less { slice_index_or numbers.old.items at 0 ≡ slice_index_or numbers.new.items at 0 + 1 }
    ensures others { (n : ℕ) → n ≢ at → slice_index_or numbers.new.items n 0 ≡ slice_index_or numbers.old.items n 0 }
{
    numbers[at as usize] -= 1;
}
