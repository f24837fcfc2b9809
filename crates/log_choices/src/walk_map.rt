//! The writes and deletes of a log that a walk looks up: by key, by value and by client.

use log_events::{ClientCall, Ending, EventLog, LoggedCall};
use std::alloc::{AllocError, Global};

/// A write or a delete that did not fail.
#[derive(Clone, Copy)]
pub(crate) struct Write {
    pub(crate) client: u32,
    /// The place of its begin.
    pub(crate) place: u32,
    /// Its number among the lost ones, if it was lost.
    pub(crate) lost: Option<u32>,
}

/// A write or a delete that did not fail, to be found by its key.
#[derive(Clone, Copy)]
pub(crate) struct Spot {
    pub(crate) key: u32,
    pub(crate) client: u32,
    /// The place of its begin.
    pub(crate) place: u32,
    /// Its number among the writes and deletes that did not fail.
    pub(crate) number: u32,
}

/// A write that did not fail, to be found by its key and value.
#[derive(Clone, Copy)]
struct Valued {
    key: u32,
    value: u32,
    /// Its number among the writes and deletes that did not fail.
    number: u32,
}

/// What a walk looks up.
#[derive(Drop)]
pub(crate) struct WriteMap {
    /// How many clients there are.
    pub(crate) clients: u32,
    /// The writes and deletes that did not fail, in the order of their begins.
    pub(crate) writes: Vec<Write>,
    /// How many of them were lost.
    pub(crate) lost: u32,
    /// Those that were not lost, by key, client and place.
    spots: Vec<Spot>,
    /// Those that were lost, by key and place.
    lost_spots: Vec<Spot>,
    /// The deletes among all, by key and place.
    deletes: Vec<Spot>,
    /// The writes among all, by key and value.
    values: Vec<Valued>,
    /// Those that were not lost, by client and place.
    rows: Vec<Spot>,
}

impl WriteMap {
    /// The map of a log.
    ///
    /// Fails for want of memory alone. O(n log n) for n calls.
    pub(crate) fn of(alloc: Global, log: &EventLog) -> Result<WriteMap, AllocError> {
        let mut map = WriteMap::nothing(alloc, log.clients());
        let mut number = 0u32;
        for call in log.calls() {
            if let Some(key) = written_key(call) {
                map.put(call, key, number)?;
                number = number.saturating_add(1);
            }
        }
        map.sort();
        Ok(map)
    }

    /// The map of no calls.
    fn nothing(alloc: Global, clients: u32) -> WriteMap {
        WriteMap {
            clients,
            writes: Vec::new(alloc),
            lost: 0,
            spots: Vec::new(alloc),
            lost_spots: Vec::new(alloc),
            deletes: Vec::new(alloc),
            values: Vec::new(alloc),
            rows: Vec::new(alloc),
        }
    }

    /// Puts down a write or a delete of a key.
    ///
    /// Fails for want of memory alone.
    fn put(&mut self, call: &LoggedCall, key: u32, number: u32) -> Result<(), AllocError> {
        let spot = Spot {
            key,
            client: call.client(),
            place: call.place(),
            number,
        };
        let mut lost = None;
        if matches!(call.ending(), Some(Ending::Lost)) {
            lost = Some(self.lost);
            self.lost = self.lost.saturating_add(1);
            self.lost_spots.push(spot)?;
        } else {
            self.spots.push(spot)?;
            self.rows.push(spot)?;
        }
        match call.call() {
            ClientCall::WriteTo(_, value) => self.values.push(Valued { key, value, number })?,
            _ => self.deletes.push(spot)?,
        }
        self.writes.push(Write {
            client: spot.client,
            place: spot.place,
            lost,
        })?;
        Ok(())
    }

    /// Puts the lists in order.
    fn sort(&mut self) {
        self.spots
            .sort_unstable_by_key(|spot| (spot.key, spot.client, spot.place));
        self.lost_spots
            .sort_unstable_by_key(|spot| (spot.key, spot.place));
        self.deletes
            .sort_unstable_by_key(|spot| (spot.key, spot.place));
        self.values
            .sort_unstable_by_key(|valued| (valued.key, valued.value));
        self.rows
            .sort_unstable_by_key(|spot| (spot.client, spot.place));
    }

    /// A write or a delete, by its number.
    pub(crate) fn write(&self, number: u32) -> Option<Write> {
        self.writes.get(number as usize).copied()
    }

    /// The number of the write or delete that began at a place. O(log n) for n writes.
    pub(crate) fn number_at(&self, place: u32) -> Option<u32> {
        let number = self.writes.partition_point(|write| write.place < place);
        if self.writes.get(number)?.place == place {
            u32::try_from(number).ok()
        } else {
            None
        }
    }

    /// The number of the write of a value to a key. O(log n) for n writes.
    pub(crate) fn write_of(&self, key: u32, value: u32) -> Option<u32> {
        let at = self
            .values
            .partition_point(|valued| (valued.key, valued.value) < (key, value));
        let valued = self.values.get(at)?;
        if valued.key == key && valued.value == value {
            Some(valued.number)
        } else {
            None
        }
    }

    /// The number of the first write or delete of a client from a place on, but for lost ones. O(log n) for n writes.
    pub(crate) fn first_from(&self, client: u32, place: u32) -> Option<u32> {
        let at = self.row_place(client, place);
        number_in(&self.rows, client, at)
    }

    /// The number of the last one before a place. O(log n) for n writes.
    pub(crate) fn last_before(&self, client: u32, place: u32) -> Option<u32> {
        let at = self.row_place(client, place).checked_sub(1)?;
        number_in(&self.rows, client, at)
    }

    /// Where the writes and deletes of a client from a place on begin among those by client.
    fn row_place(&self, client: u32, place: u32) -> usize {
        self.rows
            .partition_point(|spot| (spot.client, spot.place) < (client, place))
    }

    /// The writes and deletes of a key that were not lost, by client and place. O(log n) for n writes.
    pub(crate) fn spots_of(&self, key: u32) -> &[Spot] {
        span(&self.spots, key)
    }

    /// Those that were lost, in the order of their begins. O(log n) for n writes.
    pub(crate) fn lost_of(&self, key: u32) -> &[Spot] {
        span(&self.lost_spots, key)
    }

    /// The deletes of a key, in the order of their begins. O(log n) for n deletes.
    pub(crate) fn deletes_of(&self, key: u32) -> &[Spot] {
        span(&self.deletes, key)
    }
}

/// The key of a write or a delete that did not fail.
fn written_key(call: &LoggedCall) -> Option<u32> {
    match (call.call(), call.ending()) {
        (_, Some(Ending::Failed)) | (ClientCall::ReadOf(_), _) => None,
        (ClientCall::WriteTo(key, _), _) => Some(key),
        (ClientCall::DeleteOf(key), _) => Some(key),
    }
}

/// The number of a spot at a place in a list, if it is of a client.
fn number_in(spots: &[Spot], client: u32, at: usize) -> Option<u32> {
    let spot = spots.get(at)?;
    if spot.client == client {
        Some(spot.number)
    } else {
        None
    }
}

/// The spots of a key, of spots by key.
fn span(spots: &[Spot], key: u32) -> &[Spot] {
    let from = spots.partition_point(|spot| spot.key < key);
    let to = spots.partition_point(|spot| spot.key <= key);
    if from <= to { &spots[from..to] } else { &[] }
}
