//! What parts are asked for: some operations, or those at some keys.

ghost use Rattle.std.specs.Prelude.{◌≡◌, ◌==◌, not, List, ℕ};
ghost use Rattle.std.specs.List.{list_any};
ghost use Rattle.order_causal.specs.Orders.{only};
ghost use Rattle.cert_subhistories.specs.Parts.{at_keys};

use crate::keeps::Keeps;
use model_history::OpId;
use model_objects::KeyedCall;

/// Keeps the operations that a list names.
#[derive(Clone, Copy, Debug)]
pub struct Listed<'a>(pub &'a [OpId]);

impl<'a, C> Keeps<C> for Listed<'a> {
    ghost kept = { λ it op _. list_any (only op) it.0.now };

    fn keeps(&self, op: OpId, _call: &C) -> bool {
        self.0.contains(&op)
    }
}

/// Keeps the operations at the keys of a list.
#[derive(Clone, Copy, Debug)]
pub struct AtKeys<'a>(pub &'a [u32]);

impl<'a, C> Keeps<KeyedCall<C>> for AtKeys<'a> {
    ghost kept = { λ it. at_keys (λ key. list_any (λ k. k == key) it.0.now) };

    fn keeps(&self, _op: OpId, call: &KeyedCall<C>) -> bool {
        self.0.contains(&call.key)
    }
}

/// Keeps the operations at all keys but those of a list.
#[derive(Clone, Copy, Debug)]
pub struct WithoutKeys<'a>(pub &'a [u32]);

impl<'a, C> Keeps<KeyedCall<C>> for WithoutKeys<'a> {
    ghost kept = { λ it. at_keys (λ key. not (list_any (λ k. k == key) it.0.now)) };

    fn keeps(&self, _op: OpId, call: &KeyedCall<C>) -> bool {
        !self.0.contains(&call.key)
    }
}
