//! The names of the objects whose histories have a form.

ghost use Rattle.std.specs.Prelude.{◌≡◌};
ghost use Rattle.json_histories.specs.ObjectNames.{keyed_name_at, name_at};

/// An object whose histories have a form, as a history names it.
#[derive(Clone, Copy, Debug, PartialEq, Eq)]
pub enum ObjectName {
    Register,
    Counter,
    Set,
    Queue,
    Memory,
    Counters,
    Sets,
    Queues,
}

/// The object without keys that has this name, or else the object under keys.
pub fn object_named(text: &str) -> Option<ObjectName>
    ensures { result ≡ name_at text.now }
{
    if text == "register" {
        Some(ObjectName::Register)
    } else if text == "counter" {
        Some(ObjectName::Counter)
    } else if text == "set" {
        Some(ObjectName::Set)
    } else if text == "queue" {
        Some(ObjectName::Queue)
    } else {
        keyed_object_named(text)
    }
}

/// The object under keys that has this name.
fn keyed_object_named(text: &str) -> Option<ObjectName>
    ensures { result ≡ keyed_name_at text.now }
{
    if text == "memory" {
        Some(ObjectName::Memory)
    } else if text == "counters" {
        Some(ObjectName::Counters)
    } else if text == "sets" {
        Some(ObjectName::Sets)
    } else if text == "queues" {
        Some(ObjectName::Queues)
    } else {
        None
    }
}
