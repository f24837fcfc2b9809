//! Claims: lists of a history, the name of a criterion and a pattern.

ghost use Rattle.std.specs.Prelude.{◌≡◌, ◌≢◌, ◌∷◌, [], IfOk, IfErr, MatchOption};
ghost use Rattle.serde_json.specs.Data.{Data};
ghost use Rattle.pattern_json.specs.PatternForm.{form_of as pattern_form};
ghost use Rattle.json_bounded.specs.Text.{IsJson, IsTextRefused};
ghost use Rattle.cert_check.specs.CriterionNames.{name_of};
ghost use Rattle.json_histories.specs.AnyForm.{form_of, IsAnyHistory};
ghost use Rattle.json_histories.specs.Json.{list};
ghost use Rattle.json_histories.specs.Reads.{IsRead};
ghost use Rattle.pattern_json.specs.ClaimForm.{IsClaimRefused};
ghost use Rattle.pattern_json.specs.Words.{word_form};

use crate::claim_history::{PassedHistory, ReadHistory};
use crate::claim_parts::read_three;
use crate::violation::Violation;
use cert_check::Criterion;
use json_bounded::TextError;
use json_histories::{AnyHistory, ReadError};
use pattern_check::Pattern;
use std::alloc::Global;

/// A claim: that the pattern shows that the history does not meet the criterion.
#[derive(Drop)]
pub struct Claim {
    /// The history.
    pub history: AnyHistory,
    /// The criterion, or none where the second element names none.
    pub criterion: Option<Criterion>,
    /// The pattern, or none where the third element is none.
    pub pattern: Option<Pattern>,
}

/// The claim that a text is: the JSON of a list of a history, the name of a criterion and a pattern.
///
/// `NotJson` where `serde_json` refuses the text, `BadShape` where it is no list of three elements, else the first refusal of the history,
/// whatever comes after it. `Memory` only where an allocation was refused. O(n) for a text of n bytes, of which the claim alone is kept.
pub fn read_claim(alloc: Global, text: &[u8]) -> Result<Claim, ReadError>
    ensures history { IfOk result (λ claim. IsAnyHistory claim.history) }
    ensures read { IfOk result
        (λ claim. (c : Data) × (p : Data) × IsJson text.now (list (form_of claim.history ∷ c ∷ p ∷ []))
        × IsRead (word_form name_of) c claim.criterion × IsRead pattern_form p claim.pattern) }
    ensures refused { IfErr result (IsClaimRefused text.now) }
{
    match read_three::<ReadHistory>(alloc, text) {
        Ok(Some((history, violation))) => {
            let ReadHistory(read) = history;
            Ok(Claim {
                history: read?,
                criterion: violation.criterion,
                pattern: violation.pattern,
            })
        }
        Ok(None) => Err(ReadError::BadShape),
        Err(TextError::NotJson) => Err(ReadError::NotJson),
        Err(TextError::Memory) => Err(ReadError::Memory),
    }
}

/// The violation that a claim names, which comes after its history. It passes the history, which may be any value.
///
/// None where the text is no list of three elements. `NotJson` exactly where `serde_json` refuses the text, and `Memory` only where an
/// allocation was refused. O(n) for a text of n bytes, of which the violation alone is kept.
pub fn read_violation(alloc: Global, text: &[u8]) -> Result<Option<Violation>, TextError>
    ensures read { IfOk result
        (λ read. (d : Data) × IsJson text.now d × MatchOption read ((h c p : Data) → d ≢ list (h ∷ c ∷ p ∷ []))
        (λ violation. (h : Data) × (c : Data) × (p : Data) × (d ≡ list (h ∷ c ∷ p ∷ []))
        × IsRead (word_form name_of) c violation.criterion × IsRead pattern_form p violation.pattern)) }
    ensures refused { IfErr result (IsTextRefused text.now) }
{
    match read_three::<PassedHistory>(alloc, text)? {
        Some((_, violation)) => Ok(Some(violation)),
        None => Ok(None),
    }
}
