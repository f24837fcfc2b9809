//! An object for each key, which together are one object with a sequential specification.

ghost use Rattle.std.specs.Prelude.{◌≡◌, ℕ, List, [], Some, IfOk, OnOk, OnErr};
ghost use Rattle.std.specs.BTreeMap.{insert_entry, Updates};
ghost use Rattle.std.specs.Ordering.{nat_cmp};
ghost use Rattle.model_objects.specs.Table.{IsTable, start_at};
ghost use Rattle.model_objects.specs.Keyed.{answer as keyed_answer, calls_at, depends as keyed_depends, settles as keyed_settles, Stands};
ghost use Rattle.model_objects.specs.Laws.Keyed.{empty_is_table, equal_keyed_calls};
ghost use Rattle.model_objects.specs.Laws.Keyed.{keyed_query_changes_nothing, keyed_others_change_nothing, keyed_settled};

use crate::table::Table;
use model_object_trait::SeqObject;
use std::alloc::{AllocError, Global};
use std::collections::BTreeMap;
use std::marker::Model;

/// A call of the object at a key.
#[derive(Clone, Copy, Debug, PartialEq, Eq)]
pub struct KeyedCall<C> {
    pub key: u32,
    pub call: C,
}

/// One object for each key, each with its own start.
///
/// A call costs one call of the object at its key, and a search among the keys: O(log n) for n keys. A fresh state and
/// a copied start take time and room for each entry of the start. A copy of a state takes that, and for each key that was
/// called a copy of the object there and O(log n).
#[derive(Drop)]
pub struct Keyed<O: SeqObject> {
    start: Table<O::Start>,
    states: BTreeMap<u32, O>,
    alloc: Global,
}

impl<O: SeqObject> Model for Keyed<O> {
    ghost Value = { List (ℕ × O.Start) × List (ℕ × O) };

    ghost view = { λ keyed. (keyed.start, keyed.states.entries) };

    ghost invariant = { λ keyed. IsTable O.plain_start O.is_start keyed.start };
}

/// Puts a state at a key. A refusal leaves the states unchanged.
fn put<V: Drop>(states: &mut BTreeMap<u32, V>, key: u32, state: V) -> Result<(), AllocError>
    ensures entries { OnOk result (states.new.entries ≡ insert_entry nat_cmp states.old.entries key state) }
    ensures updates { OnOk result (Updates nat_cmp states.old states.new key (Some state)) }
    ensures err { OnErr result (states.new.entries ≡ states.old.entries) }
{
    states.insert(key, state)?;
    Ok(())
}

impl<O: SeqObject> SeqObject for Keyed<O> {
    type Call = KeyedCall<O::Call>;

    type Ret = O::Ret;

    type Start = Table<O::Start>;

    ghost answer = { keyed_answer O.plain_start O.answer };

    ghost stands = { Stands O.plain_start O.stands };

    ghost query = { λ c. O.query c.call };

    ghost depends = { keyed_depends O.depends };

    ghost settles = { keyed_settles O.settles };

    ghost matches = { λ c. O.matches c.call };

    ghost plain_start = { [] };

    ghost is_start = { IsTable O.plain_start O.is_start };

    ghost plain_is_start = { empty_is_table O.plain_start O.is_start };

    ghost answer_fits = { λ start calls c. O.answer_fits (start_at O.plain_start start c.key) (calls_at c.key calls) c.call };

    ghost query_changes_nothing = { keyed_query_changes_nothing O.plain_start O.answer O.query O.query_changes_nothing };

    ghost others_change_nothing = { keyed_others_change_nothing O.plain_start O.answer O.depends O.others_change_nothing };

    ghost settled = { keyed_settled O.plain_start O.answer O.settles O.settled };

    ghost equal_calls = { equal_keyed_calls O.Call.eq O.equal_calls };

    ghost equal_rets = { O.equal_rets };

    fn plain(alloc: Global) -> Result<Table<O::Start>, AllocError> {
        Ok(Table::new(alloc))
    }

    fn copy_start(alloc: Global, start: &Table<O::Start>) -> Result<Table<O::Start>, AllocError> {
        let mut copy = Table::new(alloc);
        for (key, value) in start.entries() {
            copy.push(*key, O::copy_start(alloc, value)?)?;
        }
        Ok(copy)
    }

    fn start_for(
        alloc: Global,
        start: &Table<O::Start>,
        call: &KeyedCall<O::Call>,
    ) -> Result<Table<O::Start>, AllocError> {
        match start.get(call.key) {
            Some(value) => Table::of_entry(alloc, call.key, O::copy_start(alloc, value)?),
            None => Ok(Table::new(alloc)),
        }
    }

    fn fresh(alloc: Global, start: &Table<O::Start>) -> Result<Keyed<O>, AllocError> {
        Ok(Keyed {
            start: Keyed::<O>::copy_start(alloc, start)?,
            states: BTreeMap::new(alloc),
            alloc,
        })
    }

    fn again(&self, alloc: Global) -> Result<Keyed<O>, AllocError> {
        let start = Keyed::<O>::copy_start(alloc, &self.start)?;
        let mut states = BTreeMap::new(alloc);
        for (key, state) in &self.states {
            let copy = state.again(alloc)?;
            put(&mut states, *key, copy)?;
        }
        Ok(Keyed {
            start,
            states,
            alloc,
        })
    }

    fn apply(&mut self, call: KeyedCall<O::Call>) -> Result<O::Ret, AllocError> {
        if let Some(state) = self.states.get_mut(&call.key) {
            return state.apply(call.call);
        }
        let mut state = {
            let plain = O::plain(self.alloc)?;
            O::fresh(self.alloc, self.start.get(call.key).unwrap_or(&plain))?
        };
        let answer = state.apply(call.call)?;
        put(&mut self.states, call.key, state)?;
        Ok(answer)
    }

    fn is_query(call: &KeyedCall<O::Call>) -> bool {
        O::is_query(&call.call)
    }

    fn depends_on(call: &KeyedCall<O::Call>, other: &KeyedCall<O::Call>) -> bool {
        other.key == call.key && O::depends_on(&call.call, &other.call)
    }

    fn is_settled_by(call: &KeyedCall<O::Call>, other: &KeyedCall<O::Call>) -> bool {
        other.key == call.key && O::is_settled_by(&call.call, &other.call)
    }

    fn depends_on_any(call: &KeyedCall<O::Call>) -> bool {
        O::depends_on_any(&call.call)
    }

    fn fits(call: &KeyedCall<O::Call>, ret: &O::Ret) -> bool {
        O::fits(&call.call, ret)
    }
}
