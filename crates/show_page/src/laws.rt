//! What follows from the definitions.

ghost use Rattle.std.specs.Prelude.{◌≡◌, ◌∷◌, ℕ, List, false};
ghost use Rattle.show_page.specs.Pages.{
  BeginsNoMarkup,
  IsOfPieces,
  escaped,
  escapes_less,
  own_pieces,
  page,
  read_json,
  read_markup,
  said,
};
ghost use Rattle.show_page.specs.declared.escaping.Within.{Within};
ghost use Rattle.show_page.specs.declared.escaping.Within.TheVariants.{Json, Markup};

/// An escaped text has no `<`, so it begins no element and ends none. The function does nothing: what it ensures is the law.
#[tactic(auto, using(crate::proofs::Escapes::escaped_begins_no_markup))]
pub fn escaped_text_begins_no_markup()
    ensures { (within : Within) (text : List ℕ) → BeginsNoMarkup (escaped within text) }
{}

/// A reader of markup takes an escaped text for the text, so different texts have different escapes. The function does nothing: what it
/// ensures is the law.
#[tactic(auto, using(crate::proofs::Reading::markup_reads_back, crate::proofs::Reading::markup_apart))]
pub fn escaped_markup_reads_back()
    ensures reads_back { (text : List ℕ) → read_markup 0 (escaped Markup text) ≡ text }
    ensures apart { (a b : List ℕ) → escaped Markup a ≡ escaped Markup b → a ≡ b }
{}

/// A JSON text and its escape are one text to a reader that takes `\u003c` for the `<` that it is. In a JSON text no `<` is right behind a
/// backslash that begins an escape. The function does nothing: what it ensures is the law.
#[tactic(auto, using(crate::proofs::Reading::json_reads_the_same))]
pub fn escaped_json_reads_the_same()
    ensures { (text : List ℕ) → escapes_less 0 false text ≡ false → read_json 0 false (escaped Json text) ≡ read_json 0 false text }
{}

/// Each `<` of a page is in a text of the program, or in the picture. The function does nothing: what it ensures is the law.
#[tactic(auto, using(crate::proofs::OwnPieces::page_is_of_pieces))]
pub fn page_has_its_own_markup()
    ensures { (history report names lines notes words list picture : List ℕ) (more : ℕ)
        → IsOfPieces (picture ∷ own_pieces) (page history report names lines notes (said words more list picture)) }
{}
