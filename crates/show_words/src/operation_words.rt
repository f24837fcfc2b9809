//! Operations in words.

ghost use Rattle.model_history.specs.History.{IsOp};

use crate::forms::{Made, numbered, with_one, with_two};
use crate::naming::Names;
use model_history::{History, OpId};
use model_object_trait::SeqObject;
use model_objects::{
    AddRemoveSet, Counter, CounterCall, CounterRet, Keyed, KeyedCall, Queue, QueueCall, QueueRet,
    Register, RegisterCall, RegisterRet, SetCall, SetRet,
};
use std::alloc::{AllocError, Global};

/// An object whose operations can be put in words.
pub trait Worded: SeqObject {
    /// What a session does by a call, at a key if one is given, and its answer if that is known, with these names of variables and
    /// values. The text follows the name of the operation, as in `reads 5 from variable 3`. Fails for want of memory alone.
    fn phrase<N: Names>(
        alloc: Global,
        names: &N,
        key: Option<u32>,
        call: &Self::Call,
        ret: Option<Self::Ret>,
    ) -> Result<String, AllocError>;
}

/// An operation in words, with its name in front.
///
/// Fails for want of memory alone. O(1).
pub(crate) fn operation_words<O: Worded, N: Names>(
    alloc: Global,
    h: &History<O>,
    names: &N,
    op: OpId,
) -> Result<String, AllocError> {
    let name = names.operation(alloc, op);
    if !h.contains(op) {
        return with_one(alloc, "A is not in the history", name);
    }
    match names.phrase(alloc, op) {
        Ok(None) => with_two(alloc, "A B", name, phrase_of(alloc, h, names, op)),
        given => with_given(alloc, name, given),
    }
}

// The name of an operation, and after it the phrase that its names give for it.
fn with_given(alloc: Global, name: Made, given: Result<Option<String>, AllocError>) -> Made {
    match given {
        Ok(Some(phrase)) => with_two(alloc, "A: B", name, Ok(phrase)),
        Ok(None) => name,
        Err(error) => Err(error),
    }
}

// What a session does by an operation, and what is known of its return, by its call and its return.
fn phrase_of<O: Worded, N: Names>(alloc: Global, h: &History<O>, names: &N, op: OpId) -> Made
    requires { IsOp h.now op }
{
    let ret = h.ret(op);
    let phrase = O::phrase(alloc, names, None, &h.call(op), ret);
    with_return(alloc, phrase, ret.is_some())
}

// The same, given whether its return is known.
fn with_return(alloc: Global, phrase: Made, is_known: bool) -> Made {
    if is_known {
        phrase
    } else {
        with_one(alloc, "A, and its return is not known", phrase)
    }
}

/// A read of a memory that got a value, in words, with its name in front: `2.117 reads 41 from variable 3`.
///
/// Fails for want of memory alone. O(1).
pub fn read_of<N: Names>(
    alloc: Global,
    names: &N,
    op: OpId,
    key: u32,
    value: u64,
) -> Result<String, AllocError> {
    let name = names.operation(alloc, op);
    match names.phrase(alloc, op) {
        Ok(None) => with_two(alloc, "A B", name, words_of_read(alloc, names, key, value)),
        given => with_given(alloc, name, given),
    }
}

// What a session does by a read that got a value of a variable.
fn words_of_read<N: Names>(alloc: Global, names: &N, key: u32, value: u64) -> Made {
    let value = names.value(alloc, key, value);
    with_two(alloc, "reads A from B", value, names.variable(alloc, key))
}

// What a session does by a write.
fn words_of_write<N: Names>(alloc: Global, names: &N, key: u32, value: u64) -> Made {
    let value = names.value(alloc, key, value);
    with_two(alloc, "writes A to B", value, names.variable(alloc, key))
}

// A key and its words after a phrase, if there is a key.
fn with_key(alloc: Global, phrase: Made, words: &'static str, key: Option<u32>) -> Made {
    match key {
        Some(key) => with_two(alloc, "AB", phrase, numbered(alloc, words, u64::from(key))),
        None => phrase,
    }
}

impl Worded for Register {
    fn phrase<N: Names>(
        alloc: Global,
        names: &N,
        key: Option<u32>,
        call: &RegisterCall,
        ret: Option<RegisterRet>,
    ) -> Result<String, AllocError> {
        match key {
            Some(key) => words_of_variable(alloc, names, key, call, ret),
            None => words_of_register(alloc, call, ret),
        }
    }
}

// What a session does by a call of a memory.
fn words_of_variable<N: Names>(
    alloc: Global,
    names: &N,
    key: u32,
    call: &RegisterCall,
    ret: Option<RegisterRet>,
) -> Result<String, AllocError> {
    match (call, ret) {
        (RegisterCall::Write(value), _) => words_of_write(alloc, names, key, *value),
        (RegisterCall::Read, Some(RegisterRet::Value(value))) => {
            words_of_read(alloc, names, key, value)
        }
        (RegisterCall::Read, _) => { with_one(alloc, "reads A", names.variable(alloc, key)) }
    }
}

// What a session does by a call of a register alone.
fn words_of_register(
    alloc: Global,
    call: &RegisterCall,
    ret: Option<RegisterRet>,
) -> Result<String, AllocError> {
    match (call, ret) {
        (RegisterCall::Write(value), _) => numbered(alloc, "writes ", *value),
        (RegisterCall::Read, Some(RegisterRet::Value(value))) => {
            numbered(alloc, "reads ", value)
        }
        (RegisterCall::Read, _) => String::from_str(alloc, "reads"),
    }
}

impl Worded for Counter {
    fn phrase<N: Names>(
        alloc: Global,
        _names: &N,
        key: Option<u32>,
        call: &CounterCall,
        ret: Option<CounterRet>,
    ) -> Result<String, AllocError> {
        words_of_counter(alloc, key, call, ret)
    }
}

// What a session does by a call of a counter, at a key if there is one.
fn words_of_counter(
    alloc: Global,
    key: Option<u32>,
    call: &CounterCall,
    ret: Option<CounterRet>,
) -> Made {
    match (call, ret) {
        (CounterCall::Increment, _) => {
            with_key(alloc, String::from_str(alloc, "increments"), " key ", key)
        }
        (CounterCall::Get, Some(CounterRet::Value(value))) => {
            with_key(alloc, numbered(alloc, "gets ", value), " from key ", key)
        }
        (CounterCall::Get, _) => {
            with_key(
                alloc,
                String::from_str(alloc, "gets the count"),
                " of key ",
                key,
            )
        }
    }
}

impl Worded for AddRemoveSet {
    fn phrase<N: Names>(
        alloc: Global,
        _names: &N,
        key: Option<u32>,
        call: &SetCall,
        ret: Option<SetRet>,
    ) -> Result<String, AllocError> {
        with_key(alloc, words_of_set(alloc, call, ret), " at key ", key)
    }
}

// What a session does by a call of a set.
fn words_of_set(alloc: Global, call: &SetCall, ret: Option<SetRet>) -> Made {
    let (words, element) = set_words(call, ret);
    numbered(alloc, words, element)
}

// The words for a call of a set, and the element after them.
fn set_words(call: &SetCall, ret: Option<SetRet>) -> (&'static str, u64) {
    match (call, ret) {
        (SetCall::Add(element), _) => ("adds ", *element),
        (SetCall::Remove(element), _) => ("removes ", *element),
        (SetCall::Has(element), Some(SetRet::Has(true))) => ("finds ", *element),
        (SetCall::Has(element), Some(SetRet::Has(false))) => ("does not find ", *element),
        (SetCall::Has(element), _) => ("looks for ", *element),
    }
}

impl Worded for Queue {
    fn phrase<N: Names>(
        alloc: Global,
        _names: &N,
        key: Option<u32>,
        call: &QueueCall,
        ret: Option<QueueRet>,
    ) -> Result<String, AllocError> {
        with_key(alloc, words_of_queue(alloc, call, ret), " at key ", key)
    }
}

// What a session does by a call of a queue.
fn words_of_queue(alloc: Global, call: &QueueCall, ret: Option<QueueRet>) -> Made {
    match (call, ret) {
        (QueueCall::Push(value), _) => numbered(alloc, "pushes ", *value),
        (QueueCall::Pop, Some(QueueRet::Popped(Some(value)))) => numbered(alloc, "pops ", value),
        (QueueCall::Pop, Some(QueueRet::Popped(None))) => String::from_str(alloc, "pops nothing"),
        (QueueCall::Pop, _) => String::from_str(alloc, "pops"),
    }
}

impl<O: Worded> Worded for Keyed<O> {
    fn phrase<N: Names>(
        alloc: Global,
        names: &N,
        _key: Option<u32>,
        call: &KeyedCall<O::Call>,
        ret: Option<O::Ret>,
    ) -> Result<String, AllocError> {
        O::phrase(alloc, names, Some(call.key), &call.call, ret)
    }
}
