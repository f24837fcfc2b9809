//! A register with write and read, as an object with a sequential specification.

ghost use Rattle.std.specs.Prelude.{◌≡◌, ◌⊎◌, ℕ, List, Bool};
ghost use Rattle.std.proofs.Common.{rules};
ghost use Rattle.model_objects.specs.Register.{answer as register_answer, depends as register_depends, is_read};
ghost use Rattle.model_objects.specs.Register.{settles as register_settles};
ghost use Rattle.model_objects.specs.Register.{last_written, matches as register_matches};
ghost use Rattle.model_objects.specs.Laws.Register.{answer_fits, others_change_nothing, query_changes_nothing, same_writes, write_and_read};
ghost use Rattle.model_objects.specs.Laws.Register.{read_and_write, same_values, settled, done_and_value, value_and_done};
ghost use Rattle.model_objects.specs.Laws.Equal.{alike, same_numbers};
ghost use Rattle.model_objects.specs.declared.register.RegisterCall.TheVariants.{Write, Read};
ghost use Rattle.model_objects.specs.declared.register.RegisterRet.TheVariants.{Done, Value};

use model_object_trait::SeqObject;
use std::alloc::{AllocError, Global};

/// A call of a register.
#[derive(Clone, Copy, Debug, PartialEq, Eq)]
pub enum RegisterCall {
    Write(u64),
    Read,
}

/// What a register answers: `Done` to a write, and the value to a read.
#[derive(Clone, Copy, Debug, PartialEq, Eq)]
pub enum RegisterRet {
    Done,
    Value(u64),
}

/// One value. A read answers the value that was written last, or the start.
#[derive(Clone, Copy, Debug, PartialEq, Eq)]
pub struct Register {
    value: u64,
}

impl SeqObject for Register {
    type Call = RegisterCall;

    type Ret = RegisterRet;

    type Start = u64;

    ghost answer = { register_answer };

    ghost stands = { λ state start calls. state.value ≡ last_written start calls };

    ghost query = { is_read };

    ghost depends = { register_depends };

    ghost settles = { register_settles };

    ghost matches = { register_matches };

    ghost plain_start = { 0 };

    ghost is_start = { λ _. Unit {0} };

    ghost plain_is_start = { tt };

    ghost answer_fits = { answer_fits };

    ghost query_changes_nothing = { query_changes_nothing };

    ghost others_change_nothing = { others_change_nothing };

    ghost settled = { settled };

    ghost equal_calls = { elim [
      | Write u ↦ elim [ Write v ↦ same_writes u v | Read ↦ write_and_read u ]
      | Read ↦ elim [ Write v ↦ read_and_write v | Read ↦ alike Read ]
    ] };

    ghost equal_rets = { elim [
      | Done ↦ elim [ Done ↦ alike Done | Value v ↦ done_and_value v ]
      | Value u ↦ elim [ Done ↦ value_and_done u | Value v ↦ same_values u v ]
    ] };

    fn plain(_alloc: Global) -> Result<u64, AllocError> {
        Ok(0)
    }

    fn copy_start(_alloc: Global, start: &u64) -> Result<u64, AllocError> {
        Ok(*start)
    }

    fn start_for(_alloc: Global, start: &u64, _call: &RegisterCall) -> Result<u64, AllocError> {
        Ok(*start)
    }

    fn fresh(_alloc: Global, start: &u64) -> Result<Register, AllocError> {
        Ok(Register { value: *start })
    }

    fn again(&self, _alloc: Global) -> Result<Register, AllocError> {
        Ok(*self)
    }

    fn apply(&mut self, call: RegisterCall) -> Result<RegisterRet, AllocError> {
        Ok(match call {
            RegisterCall::Write(value) => {
                self.value = value;
                RegisterRet::Done
            }
            RegisterCall::Read => RegisterRet::Value(self.value),
        })
    }

    fn is_query(call: &RegisterCall) -> bool {
        matches!(call, RegisterCall::Read)
    }

    fn depends_on(call: &RegisterCall, other: &RegisterCall) -> bool {
        matches!((call, other), (RegisterCall::Read, RegisterCall::Write(_)))
    }

    fn is_settled_by(call: &RegisterCall, other: &RegisterCall) -> bool {
        Register::depends_on(call, other)
    }

    fn depends_on_any(call: &RegisterCall) -> bool {
        matches!(call, RegisterCall::Read)
    }

    fn fits(call: &RegisterCall, ret: &RegisterRet) -> bool {
        matches!(
            (call, ret),
            (RegisterCall::Write(_), RegisterRet::Done)
                | (RegisterCall::Read, RegisterRet::Value(_))
        )
    }
}
