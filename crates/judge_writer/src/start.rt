//! Writing the start of a memory: its table of initial values.

ghost use Rattle.std.specs.Prelude.{map, OnOk};
ghost use Rattle.json_histories.specs.RegisterForm as register;
ghost use Rattle.json_histories.specs.Spelling.{table_form};
ghost use Rattle.judge_writer.specs.Steps.{AreWritten, IsWritten, initial_form};

use crate::operation::write_number;
use json::Writer;
use model_objects::Table;
use std::alloc::AllocError;

/// Writes a key and its initial value.
fn write_initial(out: &mut Writer, entry: &(u32, u64)) -> Result<(), AllocError>
    ensures { OnOk result (IsWritten (initial_form entry.now) out.old out.new) }
{
    out.begin_array()?;
    write_number(out, u64::from(entry.0))?;
    write_number(out, entry.1)?;
    out.end_array()
}

/// Writes keys and their initial values, one after the other.
fn write_initials(out: &mut Writer, entries: &[(u32, u64)]) -> Result<(), AllocError>
    ensures { OnOk result (AreWritten (map initial_form entries.now) out.old out.new) }
{
    for entry in entries {
        write_initial(out, entry)?;
    }
    Ok(())
}

/// Writes the form of a start: nothing where there are no initial values. O(n) for n of them.
pub(crate) fn write_start(out: &mut Writer, start: &Table<u64>) -> Result<(), AllocError>
    ensures { OnOk result (AreWritten (table_form register.start_form start.now) out.old out.new) }
{
    if start.is_empty() {
        return Ok(());
    }
    out.begin_array()?;
    write_initials(out, start.entries())?;
    out.end_array()
}
