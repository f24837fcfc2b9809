//! A history that begins from the plain start of its object.

ghost use Rattle.std.specs.Prelude.{◌≡◌};
ghost use Rattle.model_history.specs.History.{IsHistory};

use model_history::History;
use model_object_trait::SeqObject;
use std::marker::Model;

/// A history from the plain start.
///
/// The form of a history of an object without keys has no start, so such a history has the plain start.
#[derive(Drop)]
pub struct PlainHistory<O: SeqObject> {
    history: History<O>,
}

impl<O: SeqObject> Model for PlainHistory<O> {
    ghost use Rattle.std.specs.Prelude.{◌≡◌, List, Option};

    ghost Value = { O.Start × List (List (O.Call × Option O.Ret)) };

    ghost view = { λ plain. plain.history };

    ghost invariant = { λ plain. plain.history.0 ≡ O.plain_start };
}

impl<O: SeqObject> PlainHistory<O> {
    /// A history that starts plain.
    pub fn of(history: History<O>) -> PlainHistory<O>
        requires { history.0 ≡ O.plain_start }
        ensures { result ≡ history }
    {
        PlainHistory { history }
    }

    /// The history from which it was made.
    pub fn into_history(self) -> History<O>
        ensures { result ≡ self }
    {
        self.history
    }

    /// The history.
    pub fn history(&self) -> &History<O>
        ensures same { result.now ≡ self.now }
        ensures plain { self.now.0 ≡ O.plain_start }
    {
        &self.history
    }
}
