//! What comes before the calls that a walk has come to.

use crate::walk_map::{Write, WriteMap};
use std::alloc::{AllocError, Global};

/// From a call of a client on more calls of another come before.
#[derive(Clone, Copy)]
struct Growth {
    /// The place of the call.
    at: u32,
    /// One more than the place of the last write or delete of the other client that comes before.
    count: u32,
}

/// From a call of a client on a lost write or delete comes before.
#[derive(Clone, Copy)]
struct Arrival {
    /// The place of the call.
    at: u32,
    /// The number of the lost one among the lost ones.
    lost: u32,
}

/// What comes before each client's next call, and before each write and delete that the walk has come to.
///
/// A lost one comes before a call only if it was seen. So it is in no count, and the clients that have seen it are kept apart.
#[derive(Drop)]
pub(crate) struct Pasts {
    clients: u32,
    /// For each client and each client one more than the place of the last write or delete that comes before, or 0.
    rows: Vec<u32>,
    /// The same for each write and delete and each client.
    write_rows: Vec<u32>,
    /// Whether the walk has come to a write or delete.
    walked: Vec<bool>,
    /// For each client and each client how the count has grown.
    growths: Vec<Vec<Growth>>,
    /// For each lost one and each client the place of the call from which on it comes before, or the greatest number.
    arrivals: Vec<u32>,
    /// For each client the lost ones that come before, as they came.
    known: Vec<Vec<Arrival>>,
    /// For each client and each client how many that the latter knows were taken over.
    taken_over: Vec<u32>,
}

impl Pasts {
    /// Nothing comes before anything.
    ///
    /// Fails for want of memory alone. O(n k + k^2) for n writes and k clients.
    pub(crate) fn nothing(alloc: Global, map: &WriteMap) -> Result<Pasts, AllocError> {
        let clients = map.clients as usize;
        let square = clients.saturating_mul(clients);
        let writes = map.writes.len();
        let lost = map.lost as usize;
        let rows: Vec<u32> = vec![in alloc; 0; square]?;
        let write_rows: Vec<u32> = vec![in alloc; 0; writes.saturating_mul(clients)]?;
        let walked: Vec<bool> = vec![in alloc; false; writes]?;
        let arrivals: Vec<u32> = vec![in alloc; u32::MAX; lost.saturating_mul(clients)]?;
        let taken_over: Vec<u32> = vec![in alloc; 0; square]?;
        Ok(Pasts {
            clients: map.clients,
            rows,
            write_rows,
            walked,
            growths: no_growths(alloc, square)?,
            arrivals,
            known: no_arrivals(alloc, clients)?,
            taken_over,
        })
    }

    /// Whether the walk has come to a write or delete.
    pub(crate) fn is_walked(&self, number: u32) -> bool {
        self.walked.get(number as usize).copied().unwrap_or(false)
    }

    /// One more than the place of the last write or delete of a client that comes before the next call of another, or 0.
    pub(crate) fn count(&self, client: u32, of: u32) -> u32 {
        number_at(&self.rows, self.place(client, of))
    }

    /// The same before a write or delete.
    pub(crate) fn count_before(&self, number: u32, of: u32) -> u32 {
        number_at(&self.write_rows, self.place(number, of))
    }

    /// The place of a column in a row of as many as there are clients.
    fn place(&self, row: u32, column: u32) -> usize {
        let start = (row as usize).saturating_mul(self.clients as usize);
        start.saturating_add(column as usize)
    }

    /// The place of the call of a client from which on a lost one comes before, or the greatest number.
    fn arrival_of_lost(&self, client: u32, lost: u32) -> u32 {
        let place = self.place(lost, client);
        self.arrivals.get(place).copied().unwrap_or(u32::MAX)
    }

    /// The place of the call of a client from which on a write or delete comes before, or the greatest number. O(log n) for n calls.
    pub(crate) fn arrival(&self, client: u32, write: Write) -> u32 {
        if let Some(lost) = write.lost {
            return self.arrival_of_lost(client, lost);
        }
        if write.client == client {
            return write.place;
        }
        match self.growths.get(self.place(client, write.client)) {
            Some(growths) => {
                let number = growths.partition_point(|growth| growth.count <= write.place);
                growths.get(number).map_or(u32::MAX, |growth| growth.at)
            }
            None => u32::MAX,
        }
    }

    /// Whether a write or delete comes before the next call of a client.
    pub(crate) fn precedes(&self, write: Write, client: u32) -> bool {
        match write.lost {
            Some(lost) => self.arrival_of_lost(client, lost) != u32::MAX,
            None => self.count(client, write.client) > write.place,
        }
    }

    /// Whether a write or delete comes before another, by its number.
    pub(crate) fn precedes_write(&self, write: Write, number: u32, other: Write) -> bool {
        match write.lost {
            Some(lost) => self.arrival_of_lost(other.client, lost) < other.place,
            None => self.count_before(number, write.client) > write.place,
        }
    }

    /// How much more would come before the next call of a client with what comes before a write or delete. O(k) for k clients.
    pub(crate) fn added(&self, client: u32, number: u32) -> u64 {
        let mut added = 0u64;
        for of in 0..self.clients {
            let more = self
                .count_before(number, of)
                .saturating_sub(self.count(client, of));
            added = added.saturating_add(u64::from(more));
        }
        added
    }

    /// Comes to a write or delete. O(k) for k clients.
    pub(crate) fn come_to(&mut self, number: u32, write: Write) {
        for of in 0..self.clients {
            let count = self.count(write.client, of);
            let place = self.place(number, of);
            put(&mut self.write_rows, place, count);
        }
        if let Some(is_walked) = self.walked.get_mut(number as usize) {
            *is_walked = true;
        }
        if write.lost.is_none() {
            let place = self.place(write.client, write.client);
            put(&mut self.rows, place, write.place.saturating_add(1));
        }
    }

    /// Puts a write or delete, and what comes before it, before the calls of a client from the one at a place on.
    ///
    /// Fails for want of memory alone. O(k) on average for k clients.
    pub(crate) fn follow(
        &mut self,
        client: u32,
        from: u32,
        number: u32,
        write: Write,
    ) -> Result<(), AllocError> {
        for of in 0..self.clients {
            let count = self.count_before(number, of);
            self.raise(client, from, of, count)?;
        }
        match write.lost {
            Some(lost) => self.learn(client, from, lost)?,
            None => self.raise(client, from, write.client, write.place.saturating_add(1))?,
        }
        self.take_over(client, from, write)
    }

    /// Raises a count of a client from a call on.
    ///
    /// Fails for want of memory alone.
    fn raise(&mut self, client: u32, from: u32, of: u32, count: u32) -> Result<(), AllocError> {
        let place = self.place(client, of);
        if number_at(&self.rows, place) < count {
            put(&mut self.rows, place, count);
            if let Some(growths) = self.growths.get_mut(place) {
                growths.push(Growth { at: from, count })?;
            }
        }
        Ok(())
    }

    /// Puts a lost one before the calls of a client from a call on.
    ///
    /// Fails for want of memory alone.
    fn learn(&mut self, client: u32, from: u32, lost: u32) -> Result<(), AllocError> {
        if self.arrival_of_lost(client, lost) != u32::MAX {
            return Ok(());
        }
        let place = self.place(lost, client);
        put(&mut self.arrivals, place, from);
        if let Some(known) = self.known.get_mut(client as usize) {
            known.push(Arrival { at: from, lost })?;
        }
        Ok(())
    }

    /// Puts the lost ones that come before a write or delete before the calls of a client from a call on.
    ///
    /// Fails for want of memory alone. Each lost one is gone through once for each two clients.
    fn take_over(&mut self, client: u32, from: u32, write: Write) -> Result<(), AllocError> {
        if write.client == client {
            return Ok(());
        }
        let pair = self.place(client, write.client);
        let first = number_at(&self.taken_over, pair);
        for number in first..self.known_of(write.client) {
            let Some(arrival) = self.known_at(write.client, number) else {
                break;
            };
            if arrival.at >= write.place {
                break;
            }
            self.learn(client, from, arrival.lost)?;
            put(&mut self.taken_over, pair, number.saturating_add(1));
        }
        Ok(())
    }

    /// How many lost ones come before the next call of a client.
    fn known_of(&self, client: u32) -> u32 {
        match self.known.get(client as usize) {
            Some(known) => u32::try_from(known.len()).unwrap_or(u32::MAX),
            None => 0,
        }
    }

    /// One of them, by its number.
    fn known_at(&self, client: u32, number: u32) -> Option<Arrival> {
        let known = self.known.get(client as usize)?;
        known.get(number as usize).copied()
    }
}

/// No growth, for so many pairs of clients.
///
/// Fails for want of memory alone.
fn no_growths(alloc: Global, pairs: usize) -> Result<Vec<Vec<Growth>>, AllocError> {
    let mut growths = Vec::new(alloc);
    for _ in 0..pairs {
        growths.push(Vec::new(alloc))?;
    }
    Ok(growths)
}

/// No arrival, for so many clients.
///
/// Fails for want of memory alone.
fn no_arrivals(alloc: Global, clients: usize) -> Result<Vec<Vec<Arrival>>, AllocError> {
    let mut known = Vec::new(alloc);
    for _ in 0..clients {
        known.push(Vec::new(alloc))?;
    }
    Ok(known)
}

/// The number at a place, or 0.
fn number_at(numbers: &[u32], place: usize) -> u32 {
    numbers.get(place).copied().unwrap_or(0)
}

/// Puts a number at a place, if there is one.
fn put(numbers: &mut [u32], place: usize, number: u32) {
    if let Some(slot) = numbers.get_mut(place) {
        *slot = number;
    }
}
