//! The trait of an order of updates that the answers of a store follow.

ghost use Rattle.std.specs.Prelude.{◌≡◌, ◌∷◌, ◌++◌, ◌≤◌, ℕ, [], List, Bool, true, insert, length, map};
ghost use Rattle.live_replica.specs.Orders.{IsBehind, IsLatest, IsNew, Key};
ghost use Rattle.live_replica.specs.Updates.{key};

use crate::update::UpdateOf;

/// The order of updates that the answers of a store follow.
///
/// The laws below the functions say that updates are in order, however they come.
pub trait UpdateOrder {
    /// The place of an update among those delivered before it. A key is the stamp, session and number of an update.
    ghost place: { List Key → Key → ℕ };

    /// What is true of updates that are in this order.
    ghost in_order: { List Key → Type 0 };

    /// Whether advice reports the sessions of the updates, in this order.
    ghost told: { Bool };

    /// Whether each update goes after those delivered before it.
    ghost behind: { Bool };

    /// Where an update goes among those delivered before it, which are in order.
    fn place_of<C: Copy>(taken: &[UpdateOf<C>], update: &UpdateOf<C>) -> usize
        requires { in_order (map key taken.now) }
        ensures place { result ≡ place (map key taken.now) (key update.now) }
        ensures within { result ≤ length taken.now };

    /// Whether each update goes after those delivered before it, so that no earlier state is needed.
    fn is_behind() -> bool
        ensures { result ≡ behind };

    /// Whether advice reports the order.
    fn is_told() -> bool
        ensures { result ≡ told };

    ghost behind_others: { behind ≡ true → IsBehind place };

    ghost within: { (ks : List Key) (k : Key) → place ks k ≤ length ks };

    ghost none_in_order: { in_order [] };

    ghost delivered_order: { (ks : List Key) (k : Key) → in_order ks → IsNew ks k → in_order (insert ks (place ks k) k) };

    ghost latest_in_order: { (ks : List Key) (k : Key) → in_order ks → IsLatest ks k → in_order (ks ++ k ∷ []) };
}
