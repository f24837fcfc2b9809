//! The judging of objects other than a memory, by certificates from what a store reported.

ghost use Rattle.std.specs.Prelude.{◌≡◌, IfOk, IfSome};
ghost use Rattle.cert_check.specs.Certificates.{HasShapeOf, criterion_of};

use crate::judged::Judged;
use cert_check::{Certificate, Criterion};
use judge_decision::Decision;
use model_history::{Advice, History};
use model_object_trait::SeqObject;
use model_objects::{AddRemoveSet, Counter, Counters, Queue, Queues, Register, Sets};
use pattern_check::Pattern;
use std::alloc::{AllocError, Global};

// The histories of these objects are judged as a store advises: nothing is decided without a certificate, no pattern is looked for, and
// certificates are made from what a store reported of each operation, or by program order alone if it reported nothing. Each implementation
// is written out: one for all objects of a kind makes every call at an object under keys several times as long to prove.

/// A certificate for any object: from what a store reported, or by program order alone if the advice is empty or of another
/// length than the history.
fn certificate_for<O: SeqObject>(
    alloc: Global,
    h: &History<O>,
    advice: &[Option<Advice>],
    criterion: Criterion,
) -> Result<Option<Certificate>, AllocError>
    ensures criterion { IfOk result (λ made. IfSome made (λ c. criterion_of c ≡ criterion)) }
    ensures shape { IfOk result (λ made. IfSome made (HasShapeOf h.now)) }
{
    match criterion {
        Criterion::Cc => cert_make_cc::make(alloc, h, advice),
        Criterion::Cm => cert_make_cm::make(alloc, h, advice),
        Criterion::Ccv => cert_make_ccv::make(alloc, h, advice),
    }
}

impl Judged for Register {
    ghost resolves = { λ h. ⊥ };

    ghost names = { λ h criterion kind. ⊥ };

    ghost decides = { λ h criterion. ⊥ };

    ghost finds = { λ h criterion kind. ⊥ };

    fn decide(
        _alloc: Global,
        _h: &History<Register>,
        _criterion: Criterion,
    ) -> Result<Decision, AllocError> {
        Ok(Decision::Open)
    }

    fn find(
        _alloc: Global,
        _h: &History<Register>,
        _criterion: Criterion,
    ) -> Result<Option<Pattern>, AllocError> {
        Ok(None)
    }

    fn make(
        alloc: Global,
        h: &History<Register>,
        advice: &[Option<Advice>],
        criterion: Criterion,
    ) -> Result<Option<Certificate>, AllocError> {
        certificate_for(alloc, h, advice, criterion)
    }
}

impl Judged for Counter {
    ghost resolves = { λ h. ⊥ };

    ghost names = { λ h criterion kind. ⊥ };

    ghost decides = { λ h criterion. ⊥ };

    ghost finds = { λ h criterion kind. ⊥ };

    fn decide(
        _alloc: Global,
        _h: &History<Counter>,
        _criterion: Criterion,
    ) -> Result<Decision, AllocError> {
        Ok(Decision::Open)
    }

    fn find(
        _alloc: Global,
        _h: &History<Counter>,
        _criterion: Criterion,
    ) -> Result<Option<Pattern>, AllocError> {
        Ok(None)
    }

    fn make(
        alloc: Global,
        h: &History<Counter>,
        advice: &[Option<Advice>],
        criterion: Criterion,
    ) -> Result<Option<Certificate>, AllocError> {
        certificate_for(alloc, h, advice, criterion)
    }
}

impl Judged for AddRemoveSet {
    ghost resolves = { λ h. ⊥ };

    ghost names = { λ h criterion kind. ⊥ };

    ghost decides = { λ h criterion. ⊥ };

    ghost finds = { λ h criterion kind. ⊥ };

    fn decide(
        _alloc: Global,
        _h: &History<AddRemoveSet>,
        _criterion: Criterion,
    ) -> Result<Decision, AllocError> {
        Ok(Decision::Open)
    }

    fn find(
        _alloc: Global,
        _h: &History<AddRemoveSet>,
        _criterion: Criterion,
    ) -> Result<Option<Pattern>, AllocError> {
        Ok(None)
    }

    fn make(
        alloc: Global,
        h: &History<AddRemoveSet>,
        advice: &[Option<Advice>],
        criterion: Criterion,
    ) -> Result<Option<Certificate>, AllocError> {
        certificate_for(alloc, h, advice, criterion)
    }
}

impl Judged for Queue {
    ghost resolves = { λ h. ⊥ };

    ghost names = { λ h criterion kind. ⊥ };

    ghost decides = { λ h criterion. ⊥ };

    ghost finds = { λ h criterion kind. ⊥ };

    fn decide(
        _alloc: Global,
        _h: &History<Queue>,
        _criterion: Criterion,
    ) -> Result<Decision, AllocError> {
        Ok(Decision::Open)
    }

    fn find(
        _alloc: Global,
        _h: &History<Queue>,
        _criterion: Criterion,
    ) -> Result<Option<Pattern>, AllocError> {
        Ok(None)
    }

    fn make(
        alloc: Global,
        h: &History<Queue>,
        advice: &[Option<Advice>],
        criterion: Criterion,
    ) -> Result<Option<Certificate>, AllocError> {
        certificate_for(alloc, h, advice, criterion)
    }
}

impl Judged for Counters {
    ghost resolves = { λ h. ⊥ };

    ghost names = { λ h criterion kind. ⊥ };

    ghost decides = { λ h criterion. ⊥ };

    ghost finds = { λ h criterion kind. ⊥ };

    fn decide(
        _alloc: Global,
        _h: &History<Counters>,
        _criterion: Criterion,
    ) -> Result<Decision, AllocError> {
        Ok(Decision::Open)
    }

    fn find(
        _alloc: Global,
        _h: &History<Counters>,
        _criterion: Criterion,
    ) -> Result<Option<Pattern>, AllocError> {
        Ok(None)
    }

    fn make(
        alloc: Global,
        h: &History<Counters>,
        advice: &[Option<Advice>],
        criterion: Criterion,
    ) -> Result<Option<Certificate>, AllocError> {
        certificate_for(alloc, h, advice, criterion)
    }
}

impl Judged for Sets {
    ghost resolves = { λ h. ⊥ };

    ghost names = { λ h criterion kind. ⊥ };

    ghost decides = { λ h criterion. ⊥ };

    ghost finds = { λ h criterion kind. ⊥ };

    fn decide(
        _alloc: Global,
        _h: &History<Sets>,
        _criterion: Criterion,
    ) -> Result<Decision, AllocError> {
        Ok(Decision::Open)
    }

    fn find(
        _alloc: Global,
        _h: &History<Sets>,
        _criterion: Criterion,
    ) -> Result<Option<Pattern>, AllocError> {
        Ok(None)
    }

    fn make(
        alloc: Global,
        h: &History<Sets>,
        advice: &[Option<Advice>],
        criterion: Criterion,
    ) -> Result<Option<Certificate>, AllocError> {
        certificate_for(alloc, h, advice, criterion)
    }
}

impl Judged for Queues {
    ghost resolves = { λ h. ⊥ };

    ghost names = { λ h criterion kind. ⊥ };

    ghost decides = { λ h criterion. ⊥ };

    ghost finds = { λ h criterion kind. ⊥ };

    fn decide(
        _alloc: Global,
        _h: &History<Queues>,
        _criterion: Criterion,
    ) -> Result<Decision, AllocError> {
        Ok(Decision::Open)
    }

    fn find(
        _alloc: Global,
        _h: &History<Queues>,
        _criterion: Criterion,
    ) -> Result<Option<Pattern>, AllocError> {
        Ok(None)
    }

    fn make(
        alloc: Global,
        h: &History<Queues>,
        advice: &[Option<Advice>],
        criterion: Criterion,
    ) -> Result<Option<Certificate>, AllocError> {
        certificate_for(alloc, h, advice, criterion)
    }
}
