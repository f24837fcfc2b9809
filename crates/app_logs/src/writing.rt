//! Writing what a log has: its history, or its names.

ghost use Rattle.std.specs.Prelude.{◌≡◌, ◌++◌, ◌<◌, [], IfErr, IfOk, OnOk, codes, get_or, length, string_bytes};
ghost use Rattle.serde_json.specs.Written.{compact_text};
ghost use Rattle.json_histories.specs.AnyForm.{form_of};
ghost use Rattle.log_reader.specs.NameTexts.{IsNameText};
ghost use Rattle.app_logs.specs.LogTexts.{AreNames};
ghost use Rattle.app_logs.specs.Steps.ListsSoFar.{AddsList};

use crate::text_lists::push_element;
use json_histories::AnyHistory;
use judge_memory::LongHistory;
use judge_writer::write_long;
use log_reader::{EventReader, Names};
use std::alloc::{AllocError, Global};

/// A history, in the form that `judge` reads, and a line feed.
///
/// Fails for want of memory alone. O(n) for n operations.
pub(crate) fn history_text(alloc: Global, history: &LongHistory) -> Result<String, AllocError>
    ensures { IfOk result (λ text. string_bytes text ≡ compact_text (form_of (AnyHistory.Memory history.now)) ++ codes "\n") }
{
    let mut text = write_long(alloc, history)?;
    text.push_str("\n")?;
    Ok(text)
}

/// The names of a log as JSON: the list of the clients, that of the keys and that of the values, each in the order of its numbers.
///
/// Fails for want of memory alone. O(n) for n bytes of names.
pub(crate) fn names_text(alloc: Global, reader: &EventReader) -> Result<String, AllocError>
    ensures { IfOk result (λ text. AreNames reader.now.log (string_bytes text)) }
{
    let mut text = String::from_str(alloc, "[")?;
    push_names(alloc, &mut text, reader.clients())?;
    text.push_str(",")?;
    push_names(alloc, &mut text, reader.keys())?;
    text.push_str(",")?;
    push_names(alloc, &mut text, reader.values())?;
    text.push_str("]\n")?;
    Ok(text)
}

// Appends a list of names to a text.
fn push_names(alloc: Global, text: &mut String, names: &Names) -> Result<(), AllocError>
    ensures { OnOk result (AddsList IsNameText names.now (string_bytes text.old) (string_bytes text.new)) }
{
    text.push_str("[")?;
    'names: for place in 0..names.len() {
        let name = name_at(alloc, names, place)?;
        push_element(text, place, name.as_str())?;
    }
    text.push_str("]")
}

// The name at a place of a table.
fn name_at(alloc: Global, names: &Names, place: usize) -> Result<String, AllocError>
    requires { place < length names.now }
    ensures { IfOk result (λ text. IsNameText (get_or names.now place []) (string_bytes text)) }
{
    match u32::try_from(place) {
        Ok(number) => names.text(alloc, number),
        Err(_) => Err(AllocError),
    }
}
