//! Operations in words, as a picture shows them.

use model_object_trait::SeqObject;
use model_objects::{
    AddRemoveSet, Counter, CounterCall, CounterRet, Keyed, KeyedCall, Queue, QueueCall, QueueRet,
    Register, RegisterCall, RegisterRet, SetCall, SetRet,
};
use std::alloc::{AllocError, Global};

/// An object whose operations have a label in a picture.
pub trait Labelled: SeqObject {
    /// The call, with this text after its word: a space and the key, or nothing. Fails for want of memory alone.
    fn call_label(alloc: Global, key: &str, call: &Self::Call) -> Result<String, AllocError>;

    /// The return, or none if it says no more than that the call is done. Fails for want of memory alone.
    fn return_label(alloc: Global, ret: &Self::Ret) -> Result<Option<String>, AllocError>;
}

/// The label of an operation that has none of its own: its call and, after an arrow, its return, or `?` if that is not known.
///
/// Fails for want of memory alone. O(1).
pub(crate) fn label_of<O: Labelled>(
    alloc: Global,
    call: &O::Call,
    ret: &Option<O::Ret>,
) -> Result<String, AllocError> {
    let call = O::call_label(alloc, "", call)?;
    match ret {
        None => with_return(alloc, call, "?"),
        Some(ret) => with_label(alloc, call, O::return_label(alloc, ret)),
    }
}

// The label of a call with that of its return, if that says more than that the call is done.
fn with_label(
    alloc: Global,
    call: String,
    ret: Result<Option<String>, AllocError>,
) -> Result<String, AllocError> {
    match ret {
        Ok(None) => Ok(call),
        Ok(Some(ret)) => {
            let label = with_return(alloc, call, &ret);
            drop(ret);
            label
        }
        Err(error) => {
            drop(call);
            Err(error)
        }
    }
}

// The label of a call with what it returned.
fn with_return(alloc: Global, call: String, ret: &str) -> Result<String, AllocError> {
    let label = format!(in alloc; "{call} → {ret}");
    drop(call);
    label
}

// A word with a key and a number after it.
fn word_with_number(
    alloc: Global,
    word: &str,
    key: &str,
    number: u64,
) -> Result<String, AllocError> {
    format!(in alloc; "{word}{key} {number}")
}

// A number that a call returned.
fn number_label(alloc: Global, number: u64) -> Result<Option<String>, AllocError> {
    Ok(Some(format!(in alloc; "{number}")?))
}

impl Labelled for Register {
    fn call_label(alloc: Global, key: &str, call: &RegisterCall) -> Result<String, AllocError> {
        match call {
            RegisterCall::Write(value) => format!(in alloc; "w{key} = {value}"),
            RegisterCall::Read => format!(in alloc; "r{key}"),
        }
    }

    fn return_label(alloc: Global, ret: &RegisterRet) -> Result<Option<String>, AllocError> {
        match ret {
            RegisterRet::Done => Ok(None),
            RegisterRet::Value(value) => number_label(alloc, *value),
        }
    }
}

impl Labelled for Counter {
    fn call_label(alloc: Global, key: &str, call: &CounterCall) -> Result<String, AllocError> {
        match call {
            CounterCall::Increment => format!(in alloc; "inc{key}"),
            CounterCall::Get => format!(in alloc; "get{key}"),
        }
    }

    fn return_label(alloc: Global, ret: &CounterRet) -> Result<Option<String>, AllocError> {
        match ret {
            CounterRet::Done => Ok(None),
            CounterRet::Value(value) => number_label(alloc, *value),
        }
    }
}

impl Labelled for AddRemoveSet {
    fn call_label(alloc: Global, key: &str, call: &SetCall) -> Result<String, AllocError> {
        match call {
            SetCall::Add(element) => word_with_number(alloc, "add", key, *element),
            SetCall::Remove(element) => word_with_number(alloc, "rem", key, *element),
            SetCall::Has(element) => word_with_number(alloc, "has", key, *element),
        }
    }

    fn return_label(alloc: Global, ret: &SetRet) -> Result<Option<String>, AllocError> {
        match ret {
            SetRet::Done => Ok(None),
            SetRet::Has(has) => Ok(Some(format!(in alloc; "{has}")?)),
        }
    }
}

impl Labelled for Queue {
    fn call_label(alloc: Global, key: &str, call: &QueueCall) -> Result<String, AllocError> {
        match call {
            QueueCall::Push(value) => word_with_number(alloc, "push", key, *value),
            QueueCall::Pop => format!(in alloc; "pop{key}"),
        }
    }

    fn return_label(alloc: Global, ret: &QueueRet) -> Result<Option<String>, AllocError> {
        match ret {
            QueueRet::Done => Ok(None),
            QueueRet::Popped(Some(value)) => number_label(alloc, *value),
            QueueRet::Popped(None) => Ok(Some(String::from_str(alloc, "nothing")?)),
        }
    }
}

impl<O: Labelled> Labelled for Keyed<O> {
    fn call_label(
        alloc: Global,
        key: &str,
        call: &KeyedCall<O::Call>,
    ) -> Result<String, AllocError> {
        let number = call.key;
        let key = format!(in alloc; "{key} {number}")?;
        O::call_label(alloc, &key, &call.call)
    }

    fn return_label(alloc: Global, ret: &O::Ret) -> Result<Option<String>, AllocError> {
        O::return_label(alloc, ret)
    }
}
