//! The order in which updates are delivered.

ghost use Rattle.std.specs.Prelude.{length, refl, true};
ghost use Rattle.live_causal_store.specs.Laws.Order.{length_within};

use live_replica::{UpdateOf, UpdateOrder};

/// The order in which updates were delivered: each goes after those delivered before it. Advice reports it.
#[derive(Clone, Copy, Debug, PartialEq, Eq)]
pub struct AsDelivered;

impl UpdateOrder for AsDelivered {
    ghost place = { λ taken _. length taken };

    ghost in_order = { λ _. Unit {0} };

    ghost told = { true };

    ghost behind = { true };

    ghost behind_others = { λ _ _ _. refl };

    ghost within = { length_within };

    ghost none_in_order = { tt };

    ghost delivered_order = { λ _ _ _ _. tt };

    ghost latest_in_order = { λ _ _ _ _. tt };

    fn place_of<C: Copy>(taken: &[UpdateOf<C>], _update: &UpdateOf<C>) -> usize {
        taken.len()
    }

    fn is_behind() -> bool {
        true
    }

    fn is_told() -> bool {
        true
    }
}
