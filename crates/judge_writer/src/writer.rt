//! Writing a long history as its text.

ghost use Rattle.std.specs.Prelude.{◌≡◌, [], IfOk, OnOk, string_bytes};
ghost use Rattle.json.specs.Lex.{tokens};
ghost use Rattle.json.specs.Print.{print};
ghost use Rattle.serde_json.specs.Written.{compact_text};
ghost use Rattle.judge_memory.specs.LongHistories.{IsLongHistory};
ghost use Rattle.json_histories.specs.AnyForm.{IsJson, form_of};
ghost use Rattle.judge_writer.specs.Steps.{IsWritten};

use crate::operation::write_text;
use crate::session::write_sessions;
use crate::start::write_start;
use json::Writer;
use json_histories::AnyHistory;
use judge_memory::LongHistory;
use std::alloc::{AllocError, Global};

/// Writes the form of a history.
fn write_history(out: &mut Writer, history: &LongHistory) -> Result<(), AllocError>
    ensures { OnOk result (IsWritten (form_of (AnyHistory.Memory history.now)) out.old out.new) }
{
    out.begin_array()?;
    write_text(out, "memory")?;
    write_sessions(out, history)?;
    write_start(out, history.start())?;
    out.end_array()
}

/// The text that was written.
fn text_of(out: Writer) -> String
    requires { out.before ≡ [] }
    ensures text { string_bytes result ≡ print out.tokens }
    ensures tokens { tokens (string_bytes result) ≡ out.tokens }
{
    String::from_utf8(out.into_inner()).unwrap()
}

/// The form of a memory history as compact JSON text, which is read back as that history.
///
/// Fails for want of memory alone. O(n) for n operations, sessions and initial values, and it takes memory for the text alone: some 16
/// bytes an operation.
pub fn write_long(alloc: Global, history: &LongHistory) -> Result<String, AllocError>
    ensures text { IfOk result
        (λ text. string_bytes text ≡ compact_text (form_of (AnyHistory.Memory history.now))) }
    ensures json { IfOk result (λ text. IsJson (string_bytes text) (form_of (AnyHistory.Memory history.now))) }
    ensures is_history { OnOk result (IsLongHistory history.now) }
{
    history.value_is_history();
    let mut out = Writer::new(Vec::new(alloc));
    write_history(&mut out, history)?;
    Ok(text_of(out))
}
