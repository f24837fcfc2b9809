//! The objects, and the forms of their operations in words.

use json_histories::ObjectName;

/// The names of the objects, as what is wanted.
pub(crate) const OBJECTS: &str =
    r#"; wanted is "memory", "register", "counter", "set", "queue", "counters", "sets" or "queues""#;

/// Whether the operations of an object have a key.
pub(crate) fn is_keyed(object: ObjectName) -> bool {
    match object {
        ObjectName::Memory | ObjectName::Counters | ObjectName::Sets | ObjectName::Queues => true,
        ObjectName::Register | ObjectName::Counter | ObjectName::Set | ObjectName::Queue => false,
    }
}

/// What an object is called.
pub(crate) fn name_words(object: ObjectName) -> &'static str {
    match object {
        ObjectName::Register => "a register",
        ObjectName::Counter => "a counter",
        ObjectName::Set => "a set",
        ObjectName::Queue => "a queue",
        ObjectName::Memory => "a memory",
        ObjectName::Counters => "counters",
        ObjectName::Sets => "sets",
        ObjectName::Queues => "queues",
    }
}

/// The forms of an object's operations whose returns are known.
pub(crate) fn forms_words(object: ObjectName) -> &'static str {
    match object {
        ObjectName::Register => r#"["w",VALUE] or ["r",VALUE]"#,
        ObjectName::Memory => r#"["w",KEY,VALUE] or ["r",KEY,VALUE]"#,
        ObjectName::Counter => r#"["inc"] or ["get",COUNT]"#,
        ObjectName::Counters => r#"["inc",KEY] or ["get",KEY,COUNT]"#,
        ObjectName::Set => r#"["add",ELEMENT], ["rem",ELEMENT] or ["has",ELEMENT,FOUND]"#,
        ObjectName::Sets => {
            r#"["add",KEY,ELEMENT], ["rem",KEY,ELEMENT] or ["has",KEY,ELEMENT,FOUND]"#
        }
        ObjectName::Queue => r#"["push",ITEM] or ["pop",ITEM]"#,
        ObjectName::Queues => r#"["push",KEY,ITEM] or ["pop",KEY,ITEM]"#,
    }
}
