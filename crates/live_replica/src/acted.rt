//! The result of an operation at a replica: the return, the update for the other replicas, and the advice.

use crate::update::UpdateOf;
use model_history::Advice;
use model_object_trait::SeqObject;

/// The result of an operation at a replica.
#[derive(Debug, Drop)]
pub struct ActedOf<C: Drop, R: Drop> {
    /// What the call returned.
    pub ret: R,
    /// What the other replicas are to receive; none for a query.
    pub update: Option<UpdateOf<C>>,
    /// What the replica reports of the operation.
    pub advice: Advice,
}

/// The result of an operation of an object.
pub type Acted<O> = ActedOf<<O as SeqObject>::Call, <O as SeqObject>::Ret>;
