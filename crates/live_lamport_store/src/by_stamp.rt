//! The order of updates by stamp, then by session, then by number.

ghost use Rattle.std.specs.Prelude.{◌≡◌, false, map};
ghost use Rattle.live_lamport_store.specs.Stamps.{IsRising, goes_before, place_by_stamp};
ghost use Rattle.live_lamport_store.specs.Laws.Stamp.{not_behind, place_within, rising_latest, rising_none, rising_taken};
ghost use Rattle.live_replica.specs.Updates.{key};

use live_replica::{UpdateOf, UpdateOrder};

/// The order by stamp, within one stamp by session, and within one session by number. Advice does not report it.
#[derive(Clone, Copy, Debug, PartialEq, Eq)]
pub struct ByStamp;

impl UpdateOrder for ByStamp {
    ghost place = { place_by_stamp };

    ghost in_order = { IsRising };

    ghost told = { false };

    ghost behind = { false };

    ghost behind_others = { not_behind };

    ghost within = { place_within };

    ghost none_in_order = { rising_none };

    ghost delivered_order = { rising_taken };

    ghost latest_in_order = { rising_latest };

    fn place_of<C: Copy>(taken: &[UpdateOf<C>], update: &UpdateOf<C>) -> usize {
        taken.partition_point(|other| goes_before(other, update))
    }

    fn is_behind() -> bool {
        false
    }

    fn is_told() -> bool {
        false
    }
}

/// Whether one update is before another.
fn goes_before<C: Copy>(one: &UpdateOf<C>, other: &UpdateOf<C>) -> bool
    ensures { result ≡ goes_before (key one.now) (key other.now) }
{
    if one.stamp != other.stamp {
        return one.stamp < other.stamp;
    }
    if one.session != other.session {
        return one.session < other.session;
    }
    one.number < other.number
}
