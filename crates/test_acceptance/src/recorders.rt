//! What a look finds in a cell of a recorder, which no clause says, and that full recorders are sealed, with the time that it takes.

use live_recorder::{Lanes, RecordError, Session, new_recorder};
use live_seals::{Cell, LaneLooker, Looker, seal};
use model_history::{Advice, Delivered, MAX_SESSIONS, OpId};
use model_object_trait::SeqObject;
use model_objects::{Register, RegisterCall, RegisterRet};
use std::alloc::Global;
use std::test::Fail;
use std::time::{Clock, Instant};
use test_expectations::{expect_ok, expect_same_at};

/// The greatest number of places of a lane.
const PLACES: usize = 256;

/// How many recorders of each number of sessions are filled and sealed at most, and after how many nanoseconds none is begun.
const ROUNDS: usize = 200;

const LONGEST: u128 = 100_000_000;

const FIRST: OpId = OpId {
    session: 0,
    index: 0,
};

/// A looker that is made before a session begins looks at the call's cell, and again after the begin. Then it looks at the cell of the
/// return, and again after the end.
#[test]
fn a_look_finds_a_cell_once_it_is_filled(rt: HostRuntime) -> Result<(), Fail> {
    let looks = looks_of::<Register>(rt.alloc(), 0, RegisterCall::Read, RegisterRet::Value(0));
    expect_ok(looks, [false, true, false, true])
}

/// What these looks find, where the session makes a call that returns.
fn looks_of<O: SeqObject>(
    alloc: Global,
    start: O::Start,
    call: O::Call,
    ret: O::Ret,
) -> Result<[bool; 4], RecordError>
    requires { O.is_start start }
{
    let (lanes, mut sessions) = new_recorder::<O>(alloc, 1, 1, start)?;
    match sessions.pop() {
        Some(mut session) => looks_at(alloc, &lanes, &mut session, call, ret),
        None => Err(RecordError::BadLimits),
    }
}

/// The same at the lane of this session.
fn looks_at<O: SeqObject>(
    alloc: Global,
    lanes: &Lanes<O>,
    session: &mut Session<O>,
    call: O::Call,
    ret: O::Ret,
) -> Result<[bool; 4], RecordError> {
    let mut looker = LaneLooker::new(alloc, lanes, &[])?;
    let before = looker.look(Cell::Call(FIRST))?;
    session.begin(call)?;
    let begun = looker.look(Cell::Call(FIRST))?;
    let pending = looker.look(Cell::Return(FIRST))?;
    end(alloc, session, ret)?;
    let ended = looker.look(Cell::Return(FIRST))?;
    Ok([before, begun, pending, ended])
}

/// Ends the pending call, with advice that has nothing.
fn end<O: SeqObject>(
    alloc: Global,
    session: &mut Session<O>,
    ret: O::Ret,
) -> Result<(), RecordError> {
    let advice = Advice {
        counts: [0; MAX_SESSIONS],
        stamp: 0,
        order: Delivered::of(Vec::new(alloc)),
    };
    match session.finish(ret, advice) {
        Ok(_receipt) => Ok(()),
        Err((refused, _advice)) => Err(refused),
    }
}

/// Prints how many nanoseconds a call with its return and a seal took, each in the quickest round: `bench/README.md` says how to run it.
#[test]
fn full_recorders_are_sealed(rt: HostRuntime) -> Result<(), Fail> {
    for (sessions, wanted) in [(1, 256), (4, 1024), (16, 4096)] {
        let Round { held, call, seal } = quickest(&rt, rt.alloc(), sessions)?;
        println!(rt; "sessions {sessions}: {call} ns a call, {seal} ns a seal")?;
        expect_same_at(sessions, held, wanted)?;
    }
    Ok(())
}

/// The fewest operations and the shortest times of some rounds.
fn quickest(rt: &impl Clock, alloc: Global, sessions: usize) -> Result<Round, Fail> {
    let begun = Instant::now(rt)?;
    let mut best = measured(rt, alloc, sessions)?;
    for _more in 1..ROUNDS {
        if Instant::now(rt)?.duration_since(begun).as_nanos() > LONGEST {
            return Ok(best);
        }
        best = quicker(best, measured(rt, alloc, sessions)?);
    }
    Ok(best)
}

/// What one round did: how many operations its seal holds, and how many nanoseconds a call with its return and the seal took.
#[derive(Clone, Copy)]
struct Round {
    held: usize,
    call: u128,
    seal: u128,
}

/// The fewer operations and the shorter times of two rounds.
fn quicker(one: Round, other: Round) -> Round {
    Round {
        held: one.held.min(other.held),
        call: one.call.min(other.call),
        seal: one.seal.min(other.seal),
    }
}

/// One round: fills the lanes of a recorder of so many sessions, and seals it.
fn measured(rt: &impl Clock, alloc: Global, sessions: usize) -> Result<Round, Fail> {
    let (lanes, mut own) = new_recorder::<Register>(alloc, sessions, PLACES, 0)?;
    let begun = Instant::now(rt)?;
    for session in own.iter_mut() {
        for value in 0..PLACES as u64 {
            session.begin(RegisterCall::Write(value))?;
            end(alloc, session, RegisterRet::Done)?;
        }
    }
    let filled = Instant::now(rt)?;
    let sealed = seal(alloc, &lanes, &[])?;
    let ended = Instant::now(rt)?;
    let held = sealed.advice().len();
    Ok(Round {
        held,
        call: filled.duration_since(begun).as_nanos() / (held as u128).max(1),
        seal: ended.duration_since(filled).as_nanos(),
    })
}
