//! Seals: the history that is found in the cells of a recorder, with the advice of the stores and notes of the cells.

ghost use Rattle.std.specs.Prelude.{◌≡◌, ◌<◌, length, slice_get, map, Some};
ghost use Rattle.std.specs.List.{flat_map};
ghost use Rattle.live_seals.specs.Seals.{IsAdvised};
ghost use Rattle.live_seals.specs.Steps.Tables.{IsSealedSession, advised, names};
ghost use Rattle.live_seals.specs.Steps.Sealing.{AreSealedSessions};
ghost use Rattle.model_history.specs.History.{session};

use crate::sealed_lane::SealedLane;
use model_history::{Advice, History};
use model_object_trait::SeqObject;
use std::alloc::Global;
use std::marker::Model;

/// What was found in the cells of a recorder: a history, what the stores reported, and notes of the cells.
#[derive(Drop)]
pub struct Sealed<O: SeqObject> {
    alloc: Global,
    history: History<O>,
    advice: Vec<Option<Advice>>,
    lanes: Vec<SealedLane<O>>,
}

impl<O: SeqObject> Model for Sealed<O> {
    ghost use Rattle.std.specs.Prelude.{◌≡◌, map};
    ghost use Rattle.live_seals.specs.Seals.{SealState};
    ghost use Rattle.std.specs.List.{flat_map};
    ghost use Rattle.live_seals.specs.Steps.Tables.{advised, names};
    ghost use Rattle.live_seals.specs.Steps.Sealing.{AreSealedSessions};

    ghost Value = { SealState O.Start O.Call O.Ret };

    ghost view = { λ s. record { history = s.history; cells = map names s.lanes.items; advice = map advised s.lanes.items } };

    ghost invariant = { λ s. AreSealedSessions O.matches s.history s.lanes.items × (s.advice.items ≡ flat_map advised s.lanes.items) };
}

impl<O: SeqObject> Sealed<O> {
    pub(crate) fn of(
        alloc: Global,
        history: History<O>,
        advice: Vec<Option<Advice>>,
        lanes: Vec<SealedLane<O>>,
    ) -> Sealed<O>
        requires sessions { AreSealedSessions O.matches history lanes.items }
        requires advice { advice.items ≡ flat_map advised lanes.items }
        ensures { result ≡ record { history = history; cells = map names lanes.items; advice = map advised lanes.items } }
    {
        Sealed {
            alloc,
            history,
            advice,
            lanes,
        }
    }

    /// The history: for each session the operations whose returns were found, and after them the calls that were found,
    /// without returns.
    pub fn history(&self) -> &History<O>
        ensures { result.now ≡ self.now.history }
    {
        &self.history
    }

    /// What the stores reported: one entry for each operation, in order, which is `None` for an operation without a return.
    ///
    /// The advice of an operation is what its session's `finish` received.
    pub fn advice(&self) -> &[Option<Advice>]
        ensures order { result.now ≡ flat_map (λ a. a) self.now.advice }
        ensures each { IsAdvised self.now }
    {
        &self.advice
    }

    pub(crate) fn alloc(&self) -> Global {
        self.alloc
    }

    /// The notes of a session.
    pub(crate) fn lane(&self, s: usize) -> &SealedLane<O>
        requires { s < length self.now.cells }
        ensures cells { slice_get self.now.cells s ≡ Some (names result.now) }
        ensures advice { slice_get self.now.advice s ≡ Some (advised result.now) }
        ensures session { IsSealedSession O.matches (session self.now.history s) result.now }
    {
        &self.lanes[s]
    }
}
