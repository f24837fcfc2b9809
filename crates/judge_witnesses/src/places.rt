//! The operations of a history by session, variable and value, as a walk looks for them. No contract says what is listed: what a walk
//! picks is tested.

use judge_memory::{LongEntry, LongHistory};
use model_objects::{RegisterCall, RegisterRet};
use std::alloc::{AllocError, Global};

/// A place that no list has.
pub(crate) const NOWHERE: u32 = 4_294_967_294;

/// The start, in the place of the number of a write.
pub(crate) const START: u32 = 4_294_967_295;

/// What an operation does.
#[derive(Clone, Copy, Debug, PartialEq, Eq)]
pub(crate) enum Deed {
    Write,
    KnownRead,
    OpenRead,
}

/// An operation.
#[derive(Clone, Copy)]
pub(crate) struct Operation {
    pub(crate) deed: Deed,
    pub(crate) session: u32,
    /// Its place among the operations of its session.
    pub(crate) index: u32,
    pub(crate) key: u32,
    /// What it writes, or what it returned.
    pub(crate) value: u64,
    /// The slot of its session at its variable.
    pub(crate) slot: u32,
}

/// A session at a variable.
#[derive(Clone, Copy)]
pub(crate) struct Slot {
    pub(crate) session: u32,
    /// The place of its first write in the list by slot, and of the write after its last.
    pub(crate) writes: (u32, u32),
    /// The first slot of the variable, and the slot after its last.
    pub(crate) variable: (u32, u32),
}

/// A write, by its variable and value.
#[derive(Clone, Copy)]
struct Valued {
    key: u32,
    value: u64,
    number: u32,
}

/// The operations of a history by number, by slot and by value.
#[derive(Drop)]
pub(crate) struct Places {
    /// The number of the first operation of each session, and at last that of all operations.
    starts: Vec<u32>,
    operations: Vec<Operation>,
    slots: Vec<Slot>,
    /// The numbers of the writes, by slot.
    by_slot: Vec<u32>,
    by_value: Vec<Valued>,
}

/// A length or a place as a number of 32 bits.
pub(crate) fn number_of(place: usize) -> u32 {
    u32::try_from(place).unwrap_or(NOWHERE)
}

impl Places {
    /// The operations of a history.
    ///
    /// Fails for want of memory alone. O(n log n + k) for n operations in k sessions.
    pub(crate) fn of(alloc: Global, history: &LongHistory) -> Result<Places, AllocError> {
        let mut starts = Vec::with_capacity(alloc, history.sessions())?;
        let mut operations = Vec::with_capacity(alloc, history.operations())?;
        for session in 0..history.sessions() {
            starts.push(number_of(operations.len()))?;
            push_session(history, session, &mut operations)?;
        }
        starts.push(number_of(operations.len()))?;
        let by_value = written_values(alloc, &operations)?;
        let by_key = numbers_by_key(alloc, &operations)?;
        let slots = slots_of(alloc, &mut operations, &by_key)?;
        let by_slot = writes_of(alloc, &operations, &by_key)?;
        Ok(Places {
            starts,
            operations,
            slots,
            by_slot,
            by_value,
        })
    }

    /// How many sessions there are.
    pub(crate) fn sessions(&self) -> usize {
        self.starts.len().saturating_sub(1)
    }

    /// How many operations there are.
    pub(crate) fn operations(&self) -> usize {
        self.operations.len()
    }

    /// What each operation wrote or returned, by its number.
    ///
    /// Fails for want of memory alone. O(n) for n operations.
    pub(crate) fn values(&self, alloc: Global) -> Result<Vec<u64>, AllocError> {
        let mut values = Vec::with_capacity(alloc, self.operations.len())?;
        for operation in &self.operations {
            values.push(operation.value)?;
        }
        Ok(values)
    }

    /// How many slots there are.
    pub(crate) fn slots(&self) -> usize {
        self.slots.len()
    }

    /// The number of the first operation of a session, or of the one after its last where it has none.
    pub(crate) fn start(&self, session: usize) -> u32 {
        self.starts.get(session).copied().unwrap_or(NOWHERE)
    }

    /// An operation by its number.
    pub(crate) fn operation(&self, number: u32) -> Option<Operation> {
        self.operations.get(number as usize).copied()
    }

    /// A slot by its place.
    pub(crate) fn slot(&self, place: u32) -> Option<Slot> {
        self.slots.get(place as usize).copied()
    }

    /// The last write of a slot with a number below this, or [`NOWHERE`]. O(log n) for n writes.
    pub(crate) fn last_write(&self, slot: Slot, below: u32) -> u32 {
        let (first, end) = slot.writes;
        let writes = part(&self.by_slot, first, end);
        let place = writes.partition_point(|number| *number < below);
        match place.checked_sub(1) {
            Some(last) => writes.get(last).copied().unwrap_or(NOWHERE),
            None => NOWHERE,
        }
    }

    /// The writes of a value to a variable: the place of the first of them in the list by value, and of the one after the last. O(log n).
    pub(crate) fn writers(&self, key: u32, value: u64) -> (u32, u32) {
        let first = self
            .by_value
            .partition_point(|write| (write.key, write.value) < (key, value));
        let end = self
            .by_value
            .partition_point(|write| (write.key, write.value) <= (key, value));
        (number_of(first), number_of(end))
    }

    /// The number of a write in the list by value, or [`NOWHERE`].
    pub(crate) fn writer(&self, place: u32) -> u32 {
        match self.by_value.get(place as usize) {
            Some(write) => write.number,
            None => NOWHERE,
        }
    }

    /// The first of these writes whose number is at least this, or [`NOWHERE`]. O(log n) for n of them.
    pub(crate) fn writer_from(&self, writers: (u32, u32), least: u32) -> u32 {
        let writes = part(&self.by_value, writers.0, writers.1);
        let place = writes.partition_point(|write| write.number < least);
        match writes.get(place) {
            Some(write) => write.number,
            None => NOWHERE,
        }
    }
}

/// The part of a list from one place to another, or nothing where there is no such part.
fn part<T>(list: &[T], first: u32, end: u32) -> &[T] {
    let (first, end) = (first as usize, end as usize);
    if first <= end && end <= list.len() {
        &list[first..end]
    } else {
        &[]
    }
}

/// Puts the operations of a session after those of the sessions before it.
fn push_session(
    history: &LongHistory,
    session: usize,
    operations: &mut Vec<Operation>,
) -> Result<(), AllocError> {
    if session < history.sessions() {
        for (index, entry) in history.session(session).iter().enumerate() {
            operations.push(operation_of(session, index, entry))?;
        }
    }
    Ok(())
}

/// An operation, with no slot so far.
fn operation_of(session: usize, index: usize, entry: &LongEntry) -> Operation {
    let (call, ret) = *entry;
    let (deed, value) = match (call.call, ret) {
        (RegisterCall::Write(value), _) => (Deed::Write, value),
        (RegisterCall::Read, Some(RegisterRet::Value(value))) => (Deed::KnownRead, value),
        (RegisterCall::Read, Some(RegisterRet::Done) | None) => (Deed::OpenRead, 0),
    };
    Operation {
        deed,
        session: number_of(session),
        index: number_of(index),
        key: call.key,
        value,
        slot: NOWHERE,
    }
}

/// The writes, by variable, value and number.
fn written_values(alloc: Global, operations: &[Operation]) -> Result<Vec<Valued>, AllocError> {
    let mut writes = Vec::with_capacity(alloc, operations.len())?;
    for (number, operation) in operations.iter().enumerate() {
        if operation.deed == Deed::Write {
            writes.push(Valued {
                key: operation.key,
                value: operation.value,
                number: number_of(number),
            })?;
        }
    }
    writes.sort_unstable_by_key(|write| (write.key, write.value, write.number));
    Ok(writes)
}

/// The numbers of the operations, by variable and number: each session comes once at each variable.
fn numbers_by_key(alloc: Global, operations: &[Operation]) -> Result<Vec<(u32, u32)>, AllocError> {
    let mut numbers = Vec::with_capacity(alloc, operations.len())?;
    for (number, operation) in operations.iter().enumerate() {
        numbers.push((operation.key, number_of(number)))?;
    }
    numbers.sort_unstable();
    Ok(numbers)
}

/// The slots. Each operation is given its own.
fn slots_of(
    alloc: Global,
    operations: &mut [Operation],
    by_key: &[(u32, u32)],
) -> Result<Vec<Slot>, AllocError> {
    let mut slots: Vec<Slot> = Vec::new(alloc);
    let mut last = None;
    let mut writes: u32 = 0;
    for (key, number) in by_key {
        let Some(operation) = operations.get_mut(*number as usize) else {
            continue;
        };
        if last != Some((*key, operation.session)) {
            let first = first_of_variable(&slots, last, *key);
            slots.push(Slot {
                session: operation.session,
                writes: (writes, writes),
                variable: (first, first),
            })?;
            last = Some((*key, operation.session));
        }
        operation.slot = number_of(slots.len()).saturating_sub(1);
        if operation.deed == Deed::Write {
            writes = writes.saturating_add(1);
        }
        if let Some(slot) = slots.last_mut() {
            slot.writes.1 = writes;
        }
    }
    end_variables(&mut slots);
    Ok(slots)
}

/// The first slot of the variable of the next slot, where the last slot is of this variable and session.
fn first_of_variable(slots: &[Slot], last: Option<(u32, u32)>, key: u32) -> u32 {
    match (last, slots.last()) {
        (Some((same, _)), Some(slot)) if same == key => slot.variable.0,
        _ => number_of(slots.len()),
    }
}

/// Says, for each slot, where those of its variable end.
fn end_variables(slots: &mut [Slot]) {
    let mut end = number_of(slots.len());
    let mut first = NOWHERE;
    for place in (0..slots.len()).rev() {
        if let Some(slot) = slots.get_mut(place) {
            if slot.variable.0 != first && first != NOWHERE {
                end = number_of(place).saturating_add(1);
            }
            first = slot.variable.0;
            slot.variable.1 = end;
        }
    }
}

/// The numbers of the writes, by slot.
fn writes_of(
    alloc: Global,
    operations: &[Operation],
    by_key: &[(u32, u32)],
) -> Result<Vec<u32>, AllocError> {
    let mut writes = Vec::with_capacity(alloc, operations.len())?;
    for (_, number) in by_key {
        if let Some(operation) = operations.get(*number as usize)
            && operation.deed == Deed::Write
        {
            writes.push(*number)?;
        }
    }
    Ok(writes)
}
