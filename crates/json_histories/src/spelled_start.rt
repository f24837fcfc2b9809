//! The form of a start in a table of initial values.

ghost use Rattle.std.specs.Prelude.{◌≡◌, Option, None, map, IfOk};
ghost use Rattle.serde_json.specs.Data.{Data};
ghost use Rattle.serde_json.specs.View.{view};
ghost use Rattle.json_histories.specs.RegisterForm as register;
ghost use Rattle.json_histories.specs.Spelling.{entries_at, entry_at, entry_form, no_start_at, no_start_form};

use crate::json::elements_of;
use crate::keys::{entry_of, is_above, key_of};
use model_objects::Table;
use serde_json::Value;
use std::alloc::{AllocError, Global};

/// A start that has a form unless it is the plain one, and the table of such starts under their keys.
pub trait SpelledStart: Drop + Sized {
    /// A start that is not the plain one.
    ghost start_form: { Self → Data };

    /// The start of a form.
    ghost start_at: { Data → Option Self };

    fn read_start(value: &Value) -> Option<Self>
        ensures { result ≡ start_at (view value.now) };

    fn write_start(&self) -> Value
        ensures { view result ≡ start_form self.now };

    /// The key and the start of an entry of a table.
    fn read_entry(value: &Value) -> Option<(u32, Self)>
        ensures { result ≡ entry_at start_at (view value.now) }
    {
        match elements_of(value)? {
            [key, start] => Some((key_of(key)?, Self::read_start(start)?)),
            _ => None,
        }
    }

    /// The table of these entries, where their keys rise.
    fn read_entries(alloc: Global, values: &[Value]) -> Result<Option<Table<Self>>, AllocError>
        ensures { IfOk result (λ t. t ≡ entries_at start_at None (map view values.now)) }
    {
        let mut table = Table::new(alloc);
        let mut before = None;
        for value in values {
            let Some((key, start)) = Self::read_entry(value) else {
                return Ok(None);
            };
            if !is_above(before, key) {
                return Ok(None);
            }
            table.push(key, start)?;
            before = Some(key);
        }
        Ok(Some(table))
    }

    /// The forms of the entries of a table.
    fn write_entries(alloc: Global, entries: &[(u32, Self)]) -> Result<Vec<Value>, AllocError>
        ensures { IfOk result (λ vs. map view vs.items ≡ map (entry_form start_form) entries.now) }
    {
        let mut values = Vec::new(alloc);
        for (key, start) in entries {
            values.push(entry_of(alloc, *key, start.write_start())?)?;
        }
        Ok(values)
    }
}

/// The only start is the plain one, so no table has an entry.
impl SpelledStart for () {
    ghost start_form = { no_start_form };

    ghost start_at = { no_start_at };

    fn read_start(_value: &Value) -> Option<()> {
        None
    }

    fn write_start(&self) -> Value {
        Value::Null
    }
}

/// What a register holds at first.
impl SpelledStart for u64 {
    ghost start_form = { register.start_form };

    ghost start_at = { register.start_at };

    fn read_start(value: &Value) -> Option<u64> {
        value.as_u64().filter(|start| *start != 0)
    }

    fn write_start(&self) -> Value {
        Value::from(*self)
    }
}
