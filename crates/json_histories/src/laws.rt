//! Laws of forms: the contract of each function is the law, and the function does no more than the law says.

ghost use Rattle.std.specs.Prelude.{◌≡◌, MatchResult};
ghost use Rattle.json_histories.specs.AnyForm.{form_of, IsAnyHistory};

use crate::any_history::AnyHistory;
use crate::read_error::ReadError;
use crate::reader::{read_history, write_history};
use std::alloc::Global;

/// No two histories have one form.
pub fn forms_are_distinct()
    ensures { (g h : AnyHistory) → IsAnyHistory g → IsAnyHistory h → form_of g ≡ form_of h → g ≡ h }
{}

/// Reading what was written for a history gives that history, or memory runs out. O(n) for n operations.
pub fn write_and_read(alloc: Global, history: &AnyHistory) -> Result<AnyHistory, ReadError>
    ensures { MatchResult result (λ h. h ≡ history.now) (λ e. e ≡ ReadError.Memory) }
{
    let text = write_history(alloc, history)?;
    read_history(alloc, text.as_bytes())
}
