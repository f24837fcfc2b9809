//! Tables of names.

ghost use Rattle.std.specs.Prelude.{◌≡◌, ◌<◌, [], ◌++◌, All, List, length, map, slice_index_or, IfOk, OnOk, string_bytes};
ghost use Rattle.log_reader.specs.Names.{Name, number_in, text_name, with_name};
ghost use Rattle.log_reader.specs.NameTexts.{IsNameText};
ghost use Rattle.log_reader.specs.Spelling.{IsName};
ghost use Rattle.log_reader.specs.Steps.{name_in};

use crate::name_value::{NameValue, write_name};
use crate::shown::{push_quote, push_shown};
use indexmap::IndexSet;
use std::alloc::{AllocError, Global};
use std::marker::Model;

/// A table of names: each has the number of its place.
#[derive(Drop)]
pub struct Names {
    names: IndexSet<String>,
    /// A name that is looked up.
    code: String,
}

impl Model for Names {
    ghost use Rattle.std.specs.Prelude.{List, map, string_bytes};
    ghost use Rattle.std.specs.List.{All};
    ghost use Rattle.log_reader.specs.Names.{Name};
    ghost use Rattle.log_reader.specs.Spelling.{IsName};

    ghost Value = { List Name };

    ghost view = { λ t. map string_bytes t.names.keys };

    ghost invariant = { λ t. All IsName (map string_bytes t.names.keys) };
}

impl Names {
    /// No names.
    pub(crate) fn new(alloc: Global) -> Names
        ensures { result ≡ [] }
    {
        Names {
            names: IndexSet::new(alloc),
            code: String::new(alloc),
        }
    }

    /// How many names there are.
    pub fn len(&self) -> usize
        ensures { result ≡ length self.now }
    {
        self.names.len()
    }

    /// The name with a number, as a JSON text in which no character disturbs a terminal: control characters, those that turn the
    /// direction of a text and those that end a line are escaped.
    ///
    /// Fails for want of memory alone. O(n) for a name of n bytes.
    pub fn text(&self, alloc: Global, number: u32) -> Result<String, AllocError>
        requires { number < length self.now }
        ensures { IfOk result (λ text. IsNameText (slice_index_or self.now number []) (string_bytes text)) }
    {
        match self.names.get_index(number as usize) {
            Some(name) => name_text(alloc, name.as_str()),
            None => Err(AllocError),
        }
    }

    /// The number of a name. Adds the name to the table where it is not there.
    ///
    /// Fails where memory runs out, or the number is not below 2^32. O(n) for a name of n bytes, on average.
    pub(crate) fn number(&mut self, name: NameValue<'_>) -> Result<u32, AllocError>
        ensures number { IfOk result (λ number. number ≡ number_in self.old (name_in name.entry)) }
        ensures within { IfOk result (λ number. number < length self.new) }
        ensures table { OnOk result (self.new ≡ with_name self.old (name_in name.entry)) }
        ensures grows { (more : List Name) × (self.new ≡ self.old ++ more) }
    {
        self.code.clear();
        write_name(&mut self.code, name)?;
        let index = place_in(&mut self.names, self.code.as_str())?;
        match u32::try_from(index) {
            Ok(number) => Ok(number),
            Err(_) => Err(AllocError),
        }
    }
}

// A name as a JSON text.
fn name_text(alloc: Global, name: &str) -> Result<String, AllocError>
    requires { IsName name.now }
    ensures { IfOk result (λ text. IsNameText name.now (string_bytes text)) }
{
    match name.strip_prefix('"') {
        Some(shown) => quoted_text(alloc, shown),
        None => String::from_str(alloc, name),
    }
}

// A text as a JSON text.
fn quoted_text(alloc: Global, shown: &str) -> Result<String, AllocError>
    ensures { IfOk result (λ text. IsNameText (text_name shown.now) (string_bytes text)) }
{
    let mut text = String::new(alloc);
    push_quote(&mut text)?;
    push_shown(&mut text, shown)?;
    push_quote(&mut text)?;
    Ok(text)
}

// The place of a name. Adds the name where it is not there.
fn place_in(names: &mut IndexSet<String>, name: &str) -> Result<usize, AllocError>
    requires { IsName name.now }
    ensures number { IfOk result (λ place. place ≡ number_in (map string_bytes names.old.keys) name.now) }
    ensures within { IfOk result (λ place. place < length (map string_bytes names.new.keys)) }
    ensures table { OnOk result (map string_bytes names.new.keys ≡ with_name (map string_bytes names.old.keys) name.now) }
    ensures grows { (more : List Name) × (map string_bytes names.new.keys ≡ map string_bytes names.old.keys ++ more) }
    ensures each { All IsName (map string_bytes names.old.keys) → All IsName (map string_bytes names.new.keys) }
{
    if let Some(place) = names.get_index_of(name) {
        return Ok(place);
    }
    let owned = String::from_str(*names.allocator(), name)?;
    let (place, _) = names.insert_full(owned)?;
    Ok(place)
}
