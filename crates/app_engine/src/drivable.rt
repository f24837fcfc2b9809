//! The objects whose stores are driven.

ghost use Rattle.std.specs.Prelude.{◌≡◌, ⊤, ℕ, length, refl, IfOk, Option};
ghost use Rattle.model_history.specs.History.{HistoryValue};
ghost use Rattle.json_histories.specs.declared.any_history.AnyHistory.{AnyHistory as NamedHistory};
ghost use Rattle.json_histories.specs.declared.any_history.AnyHistory.TheVariants as histories;
ghost use Rattle.live_driver.specs.Drives.{IsOfInput, RepeatsCalls};
ghost use Rattle.app_engine.specs.Driving.{IsSealedFrom, Repeats, sessions_in};

use json_histories::{AnyHistory, History, PlainHistory};
use model_object_trait::SeqObject;
use model_objects::{AddRemoveSet, Counter, Counters, Memory, Queue, Queues, Register, Sets};
use std::alloc::{AllocError, Global};

/// An object that has a name, so that its histories are among those of any object.
///
/// Its laws hold for every implementation: what holds of histories of the object holds of them there too.
pub trait Drivable: SeqObject {
    /// A history of the object, among those of any object.
    ghost any: { HistoryValue Self.Start Self.Call Self.Ret → NamedHistory };

    /// The starts that a history of the object may have there.
    ghost starts: { Self.Start → Type 0 };

    /// A copy of a history of the object, as one of any object.
    ///
    /// Fails for want of memory alone. O(n) for n operations.
    fn copy_as_any(alloc: Global, history: &History<Self>) -> Result<AnyHistory, AllocError>
        requires { starts history.now.0 }
        ensures { IfOk result (λ copy. copy ≡ any history.now) };

    ghost sealed_from: { (input h : HistoryValue Self.Start Self.Call Self.Ret) → IsOfInput input h → IsSealedFrom (any input) (any h) };

    ghost repeats: { (stop : Option ℕ) (input h : HistoryValue Self.Start Self.Call Self.Ret) → RepeatsCalls stop input h
        → Repeats stop (any input) (any h) };

    ghost sessions: { (h : HistoryValue Self.Start Self.Call Self.Ret) → sessions_in (any h) ≡ length h.1 };
}

impl Drivable for Register {
    ghost any = { λ h. histories.Register h };

    ghost starts = { λ start. start ≡ 0 };

    ghost sealed_from = { λ input h same. same };

    ghost repeats = { λ stop input h same. same };

    ghost sessions = { λ h. refl };

    fn copy_as_any(alloc: Global, history: &History<Register>) -> Result<AnyHistory, AllocError> {
        Ok(AnyHistory::Register(PlainHistory::of(history.copy(alloc)?)))
    }
}

impl Drivable for Counter {
    ghost any = { λ h. histories.Counter h };

    ghost starts = { λ start. start ≡ tt };

    ghost sealed_from = { λ input h same. same };

    ghost repeats = { λ stop input h same. same };

    ghost sessions = { λ h. refl };

    fn copy_as_any(alloc: Global, history: &History<Counter>) -> Result<AnyHistory, AllocError> {
        Ok(AnyHistory::Counter(PlainHistory::of(history.copy(alloc)?)))
    }
}

impl Drivable for AddRemoveSet {
    ghost any = { λ h. histories.Set h };

    ghost starts = { λ start. start ≡ tt };

    ghost sealed_from = { λ input h same. same };

    ghost repeats = { λ stop input h same. same };

    ghost sessions = { λ h. refl };

    fn copy_as_any(
        alloc: Global,
        history: &History<AddRemoveSet>,
    ) -> Result<AnyHistory, AllocError> {
        Ok(AnyHistory::Set(PlainHistory::of(history.copy(alloc)?)))
    }
}

impl Drivable for Queue {
    ghost any = { λ h. histories.Queue h };

    ghost starts = { λ start. start ≡ tt };

    ghost sealed_from = { λ input h same. same };

    ghost repeats = { λ stop input h same. same };

    ghost sessions = { λ h. refl };

    fn copy_as_any(alloc: Global, history: &History<Queue>) -> Result<AnyHistory, AllocError> {
        Ok(AnyHistory::Queue(PlainHistory::of(history.copy(alloc)?)))
    }
}

impl Drivable for Memory {
    ghost any = { λ h. histories.Memory h };

    ghost starts = { λ start. ⊤ };

    ghost sealed_from = { λ input h same. same };

    ghost repeats = { λ stop input h same. same };

    ghost sessions = { λ h. refl };

    fn copy_as_any(alloc: Global, history: &History<Memory>) -> Result<AnyHistory, AllocError> {
        Ok(AnyHistory::Memory(history.copy(alloc)?))
    }
}

impl Drivable for Counters {
    ghost any = { λ h. histories.Counters h };

    ghost starts = { λ start. ⊤ };

    ghost sealed_from = { λ input h same. same };

    ghost repeats = { λ stop input h same. same };

    ghost sessions = { λ h. refl };

    fn copy_as_any(alloc: Global, history: &History<Counters>) -> Result<AnyHistory, AllocError> {
        Ok(AnyHistory::Counters(history.copy(alloc)?))
    }
}

impl Drivable for Sets {
    ghost any = { λ h. histories.Sets h };

    ghost starts = { λ start. ⊤ };

    ghost sealed_from = { λ input h same. same };

    ghost repeats = { λ stop input h same. same };

    ghost sessions = { λ h. refl };

    fn copy_as_any(alloc: Global, history: &History<Sets>) -> Result<AnyHistory, AllocError> {
        Ok(AnyHistory::Sets(history.copy(alloc)?))
    }
}

impl Drivable for Queues {
    ghost any = { λ h. histories.Queues h };

    ghost starts = { λ start. ⊤ };

    ghost sealed_from = { λ input h same. same };

    ghost repeats = { λ stop input h same. same };

    ghost sessions = { λ h. refl };

    fn copy_as_any(alloc: Global, history: &History<Queues>) -> Result<AnyHistory, AllocError> {
        Ok(AnyHistory::Queues(history.copy(alloc)?))
    }
}
