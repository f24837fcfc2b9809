//! A recorded return, with its call and the advice of the store.

ghost use Rattle.std.specs.Prelude.{◌≡◌, true, None, Some};
ghost use Rattle.live_recorder.specs.Lanes.{IsFitting};

use crate::recorded::Recorded;
use model_history::Advice;
use std::marker::Model;

/// What a return cell is set to: the call, and its return with the store's advice.
///
/// It is made without a return when the call begins. A cell is set to it only once the return is known.
#[derive(Drop)]
pub struct ReturnRecord<O: Recorded> {
    call: O::Call,
    reply: Option<(O::Ret, Advice)>,
}

impl<O: Recorded> Model for ReturnRecord<O> {
    ghost use Rattle.live_recorder.specs.Lanes.{Entry, IsFitting};

    ghost Value = { Entry O.Call O.Ret };

    ghost view = { λ r. (r.call, r.reply) };

    ghost invariant = { λ r. IsFitting O.fitting (r.call, r.reply) };
}

impl<O: Recorded> ReturnRecord<O> {
    /// A record of a call that has no return yet.
    pub(crate) fn pending(call: O::Call) -> ReturnRecord<O>
        ensures { result ≡ (call, None) }
    {
        ReturnRecord { call, reply: None }
    }

    /// Puts the return in.
    pub(crate) fn fill(&mut self, ret: O::Ret, advice: Advice)
        requires { O.fitting self.old.0 ret ≡ true }
        ensures { self.new ≡ (self.old.0, Some (ret, advice)) }
    {
        self.reply = Some((ret, advice));
    }

    /// Takes the return out again.
    pub(crate) fn take(&mut self) -> Option<(O::Ret, Advice)>
        ensures empty { self.new ≡ (self.old.0, None) }
        ensures taken { result ≡ self.old.1 }
    {
        self.reply.take()
    }

    /// The call.
    pub fn call(&self) -> O::Call
        ensures { result ≡ self.now.0 }
    {
        self.call
    }

    /// The return with its advice, once it was given.
    pub fn reply(&self) -> &Option<(O::Ret, Advice)>
        ensures reply { result.now ≡ self.now.1 }
        ensures fitting { IsFitting O.fitting self.now }
    {
        &self.reply
    }
}
