//! Writing sessions.

ghost use Rattle.std.specs.Prelude.{map, OnOk};
ghost use Rattle.json_histories.specs.Json.{list};
ghost use Rattle.judge_writer.specs.Steps.{AreWritten, IsWritten, operation_form, operations_form};

use crate::operation::write_operation;
use json::Writer;
use judge_memory::{LongEntry, LongHistory};
use std::alloc::AllocError;

/// Writes the forms of operations, one after the other.
fn write_operations(out: &mut Writer, entries: &[LongEntry]) -> Result<(), AllocError>
    ensures { OnOk result (AreWritten (map (λ e. operation_form e.0 e.1) entries.now) out.old out.new) }
{
    for entry in entries {
        write_operation(out, entry)?;
    }
    Ok(())
}

/// Writes the form of a session.
fn write_session(out: &mut Writer, entries: &[LongEntry]) -> Result<(), AllocError>
    ensures { OnOk result (IsWritten (operations_form entries.now) out.old out.new) }
{
    out.begin_array()?;
    write_operations(out, entries)?;
    out.end_array()
}

/// Writes the forms of all sessions, one after the other.
fn write_each(out: &mut Writer, history: &LongHistory) -> Result<(), AllocError>
    ensures { OnOk result (AreWritten (map operations_form history.now.1) out.old out.new) }
{
    for s in 0..history.sessions() {
        write_session(out, history.session(s))?;
    }
    Ok(())
}

/// Writes the list of the sessions of a history. O(n) for n operations.
pub(crate) fn write_sessions(out: &mut Writer, history: &LongHistory) -> Result<(), AllocError>
    ensures { OnOk result (IsWritten (list (map operations_form history.now.1)) out.old out.new) }
{
    out.begin_array()?;
    write_each(out, history)?;
    out.end_array()
}
