//! What follows from the definitions.

ghost use Rattle.std.specs.Prelude.{◌≡◌, ℕ, List};
ghost use Rattle.show_pictures.specs.Markup.{IsWithoutMarkup, escaped_text, read_text};

/// An escaped text has no angle bracket and no quote. The function does nothing: what it ensures is the law.
#[tactic(auto, using(crate::proofs::Markup::escaped_has_no_markup))]
pub fn escaped_text_has_no_markup()
    ensures { (text : List ℕ) → IsWithoutMarkup (escaped_text text) }
{}

/// A reader of markup takes an escaped text for the text, so different texts have different escapes. The function does nothing: what it
/// ensures is the law.
#[tactic(auto, using(crate::proofs::Reading::reads_back, crate::proofs::Reading::apart))]
pub fn escaped_text_reads_back()
    ensures reads_back { (text : List ℕ) → read_text (escaped_text text) ≡ text }
    ensures apart { (a b : List ℕ) → escaped_text a ≡ escaped_text b → a ≡ b }
{}
