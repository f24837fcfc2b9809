//! Reading the start of a memory: its table of initial values.

ghost use Rattle.std.specs.Prelude.{◌≡◌, ◌<◌, ◌≤◌, length, IfOk, IfErr, OnOk, Option, option_map};
ghost use Rattle.json_bounded.specs.Steps.Reading.{AreRefused, IsRefused};
ghost use Rattle.json_histories.specs.Spelling.{is_above as is_above_before};
ghost use Rattle.judge_reader.specs.LongRefusals.{table_of};
ghost use Rattle.judge_reader.specs.Steps.Reading.{entry_above, start_read, table_or};
ghost use Rattle.json_tokens.specs.Tokens.{IsList, IsRest, IsValue};

use json::{Reader, Token};
use json_bounded::{TextError, walk_items};
use json_histories::{HistoryPlace, ReadError, SpelledStart};
use json_tokens::{next_token, next_value, pass_no_list, pass_value};
use model_objects::Table;
use std::alloc::Global;

/// Whether the key is above the one before it, if there is one.
fn is_above(before: Option<u32>, key: u32) -> bool
    ensures { result ≡ is_above_before before key }
{
    match before {
        Some(before) => before < key,
        None => true,
    }
}

/// The entry that comes next, if it is an entry whose key is above the one before it.
fn read_entry(
    alloc: Global,
    reader: &mut Reader<'_>,
    depth: usize,
    before: Option<u32>,
) -> Result<Option<(u32, u64)>, TextError>
    ensures read { IfOk result (λ o. IsValue (λ d. entry_above before d ≡ o) depth reader.old reader.new) }
    ensures shorter { OnOk result (length reader.new < length reader.old) }
    ensures refused { IfErr result (IsRefused depth reader.old) }
{
    let value = next_value(alloc, reader, HistoryPlace::Entry, depth)?;
    let Some(entry) = <u64 as SpelledStart>::read_entry(&value) else {
        return Ok(None);
    };
    if is_above(before, entry.0) {
        Ok(Some(entry))
    } else {
        Ok(None)
    }
}

/// The table of the rest of a list, if it has an entry and its keys rise. It passes the whole list in any case.
fn read_table(
    alloc: Global,
    reader: &mut Reader<'_>,
    depth: usize,
) -> Result<Option<Table<u64>>, TextError>
    ensures read { IfOk result (λ o. IsRest (λ ds. table_of ds ≡ o) depth reader.old reader.new) }
    ensures shorter { OnOk result (length reader.new ≤ length reader.old) }
    ensures refused { IfErr result (AreRefused depth reader.old) }
{
    let mut table = Table::new(alloc);
    let mut before = None;
    'entries: while !reader.take_end_array() {
        match read_entry(alloc, reader, depth, before)? {
            Some((key, start)) => {
                table.push(key, start)?;
                before = Some(key);
            }
            None => {
                walk_items(reader, depth)?;
                return Ok(None);
            }
        }
    }
    if table.is_empty() {
        Ok(None)
    } else {
        Ok(Some(table))
    }
}

/// The table in the list that comes next, or its refusal, or none if the next value is no list.
fn read_table_list(
    alloc: Global,
    reader: &mut Reader<'_>,
    depth: usize,
) -> Result<Option<Result<Table<u64>, ReadError>>, TextError>
    requires { 0 < depth }
    ensures read { IfOk result
        (λ o. IsList (λ ds. option_map (λ es. table_or (table_of es)) ds ≡ o) depth reader.old reader.new) }
    ensures shorter { OnOk result (length reader.new < length reader.old) }
    ensures refused { IfErr result (IsRefused depth reader.old) }
{
    let token = next_token(reader)?;
    if let Token::BeginArray = token {
        let table = read_table(alloc, reader, depth - 1)?;
        return Ok(Some(table.ok_or(ReadError::BadInitial)));
    }
    pass_no_list(alloc, token, reader, depth)?;
    Ok(None)
}

/// The start in the rest of a list: no values if the rest is empty, else the table that is its only element. None where the rest has
/// another shape.
pub(crate) fn read_start(
    alloc: Global,
    reader: &mut Reader<'_>,
    depth: usize,
) -> Result<Option<Result<Table<u64>, ReadError>>, TextError>
    requires { 0 < depth }
    ensures read { IfOk result (λ o. IsRest (λ ds. start_read ds ≡ o) depth reader.old reader.new) }
    ensures shorter { OnOk result (length reader.new ≤ length reader.old) }
    ensures refused { IfErr result (AreRefused depth reader.old) }
{
    if reader.take_end_array() {
        return Ok(Some(Ok(Table::new(alloc))));
    }
    let table = read_table_list(alloc, reader, depth)?;
    if reader.take_end_array() {
        return Ok(table);
    }
    pass_value(alloc, reader, depth)?;
    walk_items(reader, depth)?;
    Ok(None)
}
