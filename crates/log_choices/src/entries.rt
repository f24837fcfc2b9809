//! The fork of a lost call.

ghost use Rattle.std.specs.Prelude.{◌≡◌, ◌∷◌, ◌≤◌, ◌<◌, [], None, Some};
ghost use Rattle.model_objects.specs.declared.register.RegisterRet.TheVariants.{Value as Returned};
ghost use Rattle.log_events.specs.Histories.{key as variable_of, mark, read, write};

use judge_memory::LongEntry;
use log_events::{MAX_EVENTS, MAX_NAME, read_of, write_of};
use model_objects::RegisterRet;

/// The fork of a lost call that began at a place: the read of its mark, and the write of its value to the variable of its key.
pub(crate) fn fork_of(place: u32, key: u32, value: u64) -> [LongEntry; 2]
    requires small_key { key ≤ MAX_NAME }
    requires small_place { place < MAX_EVENTS }
    ensures { result ≡ read (mark place) (Some (Returned 1)) ∷ write (variable_of key) value None ∷ [] }
{
    let mark = read_of(2 * place + 1, Some(RegisterRet::Value(1)));
    let write = write_of(2 * key, value, None);
    [mark, write]
}
