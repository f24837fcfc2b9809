//! The words that name a colouring.

ghost use Rattle.std.specs.Prelude.{◌≡◌, ◌≢◌, MatchOption};
ghost use Rattle.app_command_line.specs.Options.{color_word};

use app_orders::Coloring;

/// The colouring that a word names.
pub fn coloring_in(word: &str) -> Option<Coloring>
    ensures { MatchOption result ((coloring : Coloring) → word.now ≢ color_word coloring) (λ coloring. word.now ≡ color_word coloring) }
{
    match word {
        "auto" => Some(Coloring::Auto),
        "always" => Some(Coloring::Always),
        "never" => Some(Coloring::Never),
        _ => None,
    }
}
