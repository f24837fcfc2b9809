//! Operations of a history.

ghost use Rattle.std.specs.Prelude.{◌≡◌};
ghost use Rattle.model_objects.specs.declared.register.RegisterRet.{RegisterRet as Ret};
ghost use Rattle.log_events.specs.Histories.{read, write};

use judge_memory::LongEntry;
use model_objects::{KeyedCall, RegisterCall, RegisterRet};

/// A write of a value to a variable, with its return where that is known.
pub fn write_of(variable: u32, value: u64, known: Option<RegisterRet>) -> LongEntry
    ensures { result ≡ write variable value known }
{
    let call = KeyedCall {
        key: variable,
        call: RegisterCall::Write(value),
    };
    (call, known)
}

/// A read of a variable, with its return where that is known.
pub fn read_of(variable: u32, known: Option<RegisterRet>) -> LongEntry
    ensures { result ≡ read variable known }
{
    let call = KeyedCall {
        key: variable,
        call: RegisterCall::Read,
    };
    (call, known)
}
