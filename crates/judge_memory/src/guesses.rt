//! Guesses where a list has something, from hashes of what it has at each place.
//!
//! A guess may be wrong, and there may be none. Who takes one looks at that place of the list, and searches the whole list where
//! something else is there. So nothing is claimed of guesses.

use std::alloc::{AllocError, Global};

/// How many slots a guess may be put into, counted from the slot of its hash.
const TRIES: usize = 8;

/// A place that no list of a long history has. An empty slot has it too.
pub(crate) const NOWHERE: u32 = u32::MAX;

/// What a key is multiplied by in a hash: an odd number.
const KEY_FACTOR: u64 = 0xC2B2_AE3D_27D4_EB4F;

/// What the key's product and the value are multiplied by in a hash: 2^64 divided by the golden ratio, which is odd.
const VALUE_FACTOR: u64 = 0x9E37_79B9_7F4A_7C15;

/// Guesses by hash.
#[derive(Drop)]
pub(crate) struct Guesses {
    /// Each slot that is not empty has a place in its lower bits, and bits of the hash in those above.
    slots: Vec<u32>,
    /// The slot of a hash is below this.
    bound: u64,
    /// The bits of a slot that are a place's.
    mask: u32,
}

impl Guesses {
    /// No guesses, with room for so many, of places in a list of this length.
    ///
    /// Fails for want of memory alone. It takes 4 bytes a guess.
    pub(crate) fn new(alloc: Global, room: usize, len: usize) -> Result<Guesses, AllocError> {
        let len = u32::try_from(len).unwrap_or(u32::MAX);
        let above = len.checked_next_power_of_two().unwrap_or(0);
        Ok(Guesses {
            slots: vec![in alloc; NOWHERE; room.saturating_add(TRIES)]?,
            bound: room as u64,
            mask: above.wrapping_sub(1),
        })
    }

    /// The slot of a hash.
    fn slot(&self, hash: u64) -> usize {
        ((hash >> 32).wrapping_mul(self.bound) >> 32) as usize
    }

    /// The bits of a hash that a slot has above those of a place.
    fn tag(&self, hash: u64) -> u32 {
        (hash & 0xffff_ffff) as u32 & !self.mask
    }

    /// The guess for a hash, or [`NOWHERE`]. O(1).
    pub(crate) fn place(&self, hash: u64) -> u32 {
        let slot = self.slot(hash);
        let tag = self.tag(hash);
        for more in 0..TRIES {
            let guess = match self.slots.get(slot.saturating_add(more)) {
                Some(guess) if *guess != NOWHERE => *guess,
                _ => return NOWHERE,
            };
            if guess & !self.mask == tag {
                return guess & self.mask;
            }
        }
        NOWHERE
    }

    /// Keeps a place as a guess for a hash, if one of the slots for it is empty. O(1).
    pub(crate) fn put(&mut self, hash: u64, place: usize) {
        let Ok(place) = u32::try_from(place) else {
            return;
        };
        let slot = self.slot(hash);
        let guess = self.tag(hash) | place;
        for more in 0..TRIES {
            if let Some(taken) = self.slots.get_mut(slot.saturating_add(more))
                && *taken == NOWHERE
            {
                *taken = guess;
                return;
            }
        }
    }
}

/// A hash of a key and a value: products with these factors have mixed bits above, where the slot is taken from.
pub(crate) fn hash(key: u32, value: u64) -> u64 {
    (u64::from(key).wrapping_mul(KEY_FACTOR) ^ value).wrapping_mul(VALUE_FACTOR)
}
