//! Writing one operation.

ghost use Rattle.std.specs.Prelude.{[], ◌∷◌, OnOk};
ghost use Rattle.serde_json.specs.Data.{string};
ghost use Rattle.json_histories.specs.Reads.{number_form};
ghost use Rattle.judge_writer.specs.Steps.{AreWritten, IsWritten, call_elements, operation_form, return_elements};

use json::Writer;
use judge_memory::LongEntry;
use model_objects::{KeyedCall, RegisterCall, RegisterRet};
use std::alloc::AllocError;

/// Writes a whole number.
pub(crate) fn write_number(out: &mut Writer, number: u64) -> Result<(), AllocError>
    ensures { OnOk result (IsWritten (number_form number) out.old out.new) }
{
    out.u64(number)
}

/// Writes a text.
pub(crate) fn write_text(out: &mut Writer, text: &str) -> Result<(), AllocError>
    ensures { OnOk result (IsWritten (string text.now) out.old out.new) }
{
    out.string(text)
}

/// Writes the word of a call and its key.
fn write_word(out: &mut Writer, word: &str, key: u32) -> Result<(), AllocError>
    ensures { OnOk result (AreWritten (string word.now ∷ number_form key ∷ []) out.old out.new) }
{
    write_text(out, word)?;
    write_number(out, u64::from(key))
}

/// Writes the elements of a call.
fn write_call(out: &mut Writer, call: &KeyedCall<RegisterCall>) -> Result<(), AllocError>
    ensures { OnOk result (AreWritten (call_elements call.now) out.old out.new) }
{
    match call.call {
        RegisterCall::Write(value) => {
            write_word(out, "w", call.key)?;
            write_number(out, value)
        }
        RegisterCall::Read => write_word(out, "r", call.key),
    }
}

/// Writes the elements of a return, `"?"` where it is not known.
fn write_return(out: &mut Writer, ret: &Option<RegisterRet>) -> Result<(), AllocError>
    ensures { OnOk result (AreWritten (return_elements ret.now) out.old out.new) }
{
    match ret {
        Some(RegisterRet::Done) => Ok(()),
        Some(RegisterRet::Value(value)) => write_number(out, *value),
        None => write_text(out, "?"),
    }
}

/// Writes the form of an operation. O(1).
pub(crate) fn write_operation(out: &mut Writer, entry: &LongEntry) -> Result<(), AllocError>
    ensures { OnOk result (IsWritten (operation_form entry.now.0 entry.now.1) out.old out.new) }
{
    out.begin_array()?;
    write_call(out, &entry.0)?;
    write_return(out, &entry.1)?;
    out.end_array()
}
