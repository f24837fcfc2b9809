//! The three elements of a claim, taken one after the other.

ghost use Rattle.std.specs.Prelude.{◌≡◌, ◌≢◌, ◌∷◌, [], List, IfOk, IfErr, MatchOption};
ghost use Rattle.serde_json.specs.Data.{Data};
ghost use Rattle.json_bounded.specs.Text.{IsJson, IsTextRefused};
ghost use Rattle.json_histories.specs.Json.{list};
ghost use Rattle.pattern_json.specs.declared.claim_parts.ClaimParts.TheVariants.{Whole};
ghost use Rattle.pattern_json.specs.Steps.ClaimTaken.{IsClaimTaken, IsNotThree, IsThree};

use crate::claim_history::ClaimHistory;
use crate::pattern::next_pattern;
use crate::violation::Violation;
use crate::word::next_word;
use cert_check::Criterion;
use json::Reader;
use json_bounded::TextError;
use json_tokens::{Gather, gather_text, pass_value};
use pattern_check::Pattern;
use std::alloc::Global;
use std::mem;

/// What was taken of the elements of a claim.
pub(crate) enum ClaimParts<H> {
    /// None of them.
    Nothing,
    /// The history.
    History(H),
    /// The history, and the name of a criterion.
    Named(H, Option<Criterion>),
    /// All three.
    Whole(H, Option<Criterion>, Option<Pattern>),
}

impl<H: ClaimHistory> Gather for ClaimParts<H> {
    ghost is_of = { IsClaimTaken H.made_of };

    ghost refuses = { IsNotThree };

    fn take_next(
        &mut self,
        alloc: Global,
        reader: &mut Reader<'_>,
        depth: usize,
    ) -> Result<bool, TextError> {
        match mem::replace(self, ClaimParts::Nothing) {
            ClaimParts::Nothing => {
                let history = H::next(alloc, reader, depth)?;
                mem::replace(self, ClaimParts::History(history)).discard();
                Ok(true)
            }
            ClaimParts::History(history) => match next_word(alloc, reader, depth) {
                Ok(criterion) => {
                    mem::replace(self, ClaimParts::Named(history, criterion)).discard();
                    Ok(true)
                }
                Err(error) => {
                    history.discard();
                    Err(error)
                }
            },
            ClaimParts::Named(history, criterion) => match next_pattern(alloc, reader, depth) {
                Ok(pattern) => {
                    mem::replace(self, ClaimParts::Whole(history, criterion, pattern)).discard();
                    Ok(true)
                }
                Err(error) => {
                    history.discard();
                    Err(error)
                }
            },
            ClaimParts::Whole(history, _, pattern) => {
                drop(pattern);
                history.discard();
                pass_value(alloc, reader, depth)?;
                Ok(false)
            }
        }
    }
}

impl<H: ClaimHistory> ClaimParts<H> {
    /// Drops what was taken.
    fn discard(self) {
        match self {
            ClaimParts::Nothing => {}
            ClaimParts::History(history) | ClaimParts::Named(history, _) => history.discard(),
            ClaimParts::Whole(history, _, pattern) => {
                drop(pattern);
                history.discard();
            }
        }
    }

    /// What was made of the three elements, where all of them were taken.
    fn whole(self) -> Option<(H, Violation)>
        ensures { (ds : List Data) → IsClaimTaken H.made_of self ds → MatchOption result (IsNotThree ds)
            (λ three. IsClaimTaken H.made_of (Whole three.0 three.1.criterion three.1.pattern) ds) }
    {
        match self {
            ClaimParts::Whole(history, criterion, pattern) => Some((
                history,
                Violation { criterion, pattern },
            )),
            ClaimParts::Nothing => None,
            ClaimParts::History(history) | ClaimParts::Named(history, _) => {
                history.discard();
                None
            }
        }
    }
}

// Drops what was made.
fn discard<H: ClaimHistory>(whole: Option<(H, Violation)>) {
    if let Some((history, violation)) = whole {
        drop(violation);
        history.discard();
    }
}

/// What is made of the three elements of the list that a text is, or none where it is no list of three.
///
/// `NotJson` exactly where `serde_json` refuses the text, and `Memory` only where an allocation was refused. O(n) for a text of n bytes.
pub(crate) fn read_three<H: ClaimHistory>(
    alloc: Global,
    text: &[u8],
) -> Result<Option<(H, Violation)>, TextError>
    ensures read { IfOk result
        (λ three. (d : Data) × IsJson text.now d × MatchOption three ((h c p : Data) → d ≢ list (h ∷ c ∷ p ∷ []))
        (λ t. IsThree H.made_of d t.0 t.1)) }
    ensures refused { IfErr result (IsTextRefused text.now) }
{
    let mut parts: ClaimParts<H> = ClaimParts::Nothing;
    let gathered = gather_text(alloc, text, &mut parts);
    let whole = parts.whole();
    match gathered {
        Ok(true) => Ok(whole),
        Ok(false) => {
            discard(whole);
            Ok(None)
        }
        Err(error) => {
            discard(whole);
            Err(error)
        }
    }
}
