//! The update that a replica sends to the others of an operation that is not a query.

ghost use Rattle.std.specs.Prelude.{◌≡◌, ◌<◌};
ghost use Rattle.model_history.specs.declared.limits.TheConstants.{MAX_OPERATIONS};

use model_history::MAX_SESSIONS;
use model_object_trait::SeqObject;

/// What a replica sends to the others about one of its operations that is not a query.
///
/// Nobody trusts it: whatever it says, a replica that receives it goes on.
#[derive(Clone, Copy, Debug, PartialEq, Eq)]
pub struct UpdateOf<C> {
    /// The session that wrote it.
    pub session: u8,
    /// The place of its operation in that session, from 0.
    pub index: u8,
    /// Its place among the updates of that session, from 0.
    pub number: u64,
    /// The writer's clock after the operation.
    pub stamp: u64,
    /// What was called.
    pub call: C,
    /// For each session how many of its updates the writer had delivered before; 0 for the writer's own session.
    pub seen: [u64; MAX_SESSIONS],
}

/// An update of an object.
pub type Update<O> = UpdateOf<<O as SeqObject>::Call>;

impl<C: Copy> UpdateOf<C> {
    /// The update with these parts. A session has at most `MAX_OPERATIONS` operations.
    pub fn of(
        session: u8,
        index: u64,
        number: u64,
        stamp: u64,
        call: C,
        seen: [u64; MAX_SESSIONS],
    ) -> UpdateOf<C>
        requires { index < MAX_OPERATIONS }
        ensures { result ≡ record { session = session; index = index; number = number; stamp = stamp; call = call; seen = seen } }
    {
        UpdateOf {
            session,
            index: index as u8,
            number,
            stamp,
            call,
            seen,
        }
    }

    /// The same update once more.
    pub fn again(&self) -> UpdateOf<C>
        ensures { result ≡ self.now }
    {
        *self
    }
}
