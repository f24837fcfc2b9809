//! What a desk answers to steps, one after the other.

ghost use Rattle.std.specs.Prelude.{◌≡◌};

use crate::case_files::{
    FileText, Filed, NO_OPERATION, READ_AFTER_ITS_WRITE, THREE_OF_ONE_SESSION,
    VALUES_THAT_NOBODY_WROTE, WITHOUT_A_CERTIFICATE,
};
use cert_check::{Criterion, DeskError, Outcome};
use judge_workers::OpenGate;
use live_case_desk::{Answer, Desk, Shelf, ShelfName, Ticket, Verdict};
use model_history::OpId;
use model_objects::Memory;
use pattern_check::{Kind, Pattern, Refutable};
use std::alloc::{AllocError, Global};
use std::marker::Brand;
use std::sync::Wait;
use std::test::Fail;
use test_expectations::{expect_ok, expect_same};

/// A step at a desk. Cases and verdicts have numbers, in the order in which the desk gave them.
#[derive(Clone, Copy)]
enum Step {
    File(FileText),
    FileOrBack(FileText),
    /// Files a case 64 times.
    Fill(FileText),
    Take,
    Work,
    On(usize, Event),
}

/// What a step does with a case.
#[derive(Clone, Copy)]
enum Event {
    Check(OpId),
    Put(usize),
    Ask,
    /// Puts the pattern of a read of a value that nobody wrote.
    Refute(OpId),
    Pattern,
    Settle,
}

/// What the tests see of a step.
#[derive(Clone, Copy, Debug, PartialEq)]
enum Seen {
    /// The number of a case, or of the verdicts that were put.
    Number(u32),
    Done,
    Refused(u8),
    /// The answer to a case.
    Asked(Answer),
    Piece(u32, OpId),
    Checked(u32, OpId, Outcome),
    /// The read of the pattern that a case keeps.
    Pattern(Option<OpId>),
    /// The criterion of a file that came back.
    Back(Criterion),
    Nothing,
}

const FIRST: OpId = OpId {
    session: 0,
    index: 0,
};

const SECOND: OpId = OpId {
    session: 0,
    index: 1,
};

const THIRD: OpId = OpId {
    session: 0,
    index: 2,
};

const FIRST_OF_SECOND: OpId = OpId {
    session: 1,
    index: 0,
};

const NO_SUCH: OpId = OpId {
    session: 5,
    index: 0,
};

const VERDICTS: [(Step, Seen); 18] = [
    (Step::File(READ_AFTER_ITS_WRITE), Seen::Number(0)),
    (Step::On(0, Event::Ask), Seen::Asked(Answer::Open(2))),
    (
        Step::On(0, Event::Check(FIRST)),
        Seen::Checked(0, FIRST, Outcome::Explained),
    ),
    (
        Step::On(0, Event::Check(FIRST_OF_SECOND)),
        Seen::Checked(0, FIRST_OF_SECOND, Outcome::Explained),
    ),
    (Step::On(0, Event::Check(NO_SUCH)), Seen::Refused(26)),
    (Step::On(0, Event::Put(0)), Seen::Done),
    (Step::On(0, Event::Ask), Seen::Asked(Answer::Open(1))),
    (Step::On(0, Event::Put(0)), Seen::Refused(24)),
    (Step::On(0, Event::Ask), Seen::Asked(Answer::Open(1))),
    (Step::On(0, Event::Put(1)), Seen::Done),
    (Step::On(0, Event::Ask), Seen::Asked(Answer::Yes)),
    (Step::FileOrBack(READ_AFTER_ITS_WRITE), Seen::Number(1)),
    (Step::On(1, Event::Put(0)), Seen::Refused(25)),
    (Step::On(1, Event::Ask), Seen::Asked(Answer::Open(2))),
    (Step::Work, Seen::Number(2)),
    (Step::On(1, Event::Ask), Seen::Asked(Answer::Yes)),
    (Step::File(NO_OPERATION), Seen::Number(2)),
    (Step::On(2, Event::Ask), Seen::Asked(Answer::Yes)),
];

const PATTERNS: [(Step, Seen); 14] = [
    (Step::File(VALUES_THAT_NOBODY_WROTE), Seen::Number(0)),
    (
        Step::On(0, Event::Check(SECOND)),
        Seen::Checked(0, SECOND, Outcome::Unexplained),
    ),
    (Step::On(0, Event::Put(0)), Seen::Done),
    (Step::Work, Seen::Number(1)),
    (
        Step::On(0, Event::Ask),
        Seen::Asked(Answer::Unknown(Some(FIRST))),
    ),
    (Step::On(0, Event::Refute(NO_SUCH)), Seen::Refused(23)),
    (Step::On(0, Event::Pattern), Seen::Pattern(None)),
    (Step::On(0, Event::Refute(SECOND)), Seen::Done),
    (
        Step::On(0, Event::Ask),
        Seen::Asked(Answer::No(Kind::ThinAirRead)),
    ),
    (Step::On(0, Event::Refute(FIRST)), Seen::Done),
    (Step::On(0, Event::Pattern), Seen::Pattern(Some(SECOND))),
    (Step::File(READ_AFTER_ITS_WRITE), Seen::Number(1)),
    (Step::Take, Seen::Piece(1, FIRST)),
    (Step::On(0, Event::Put(0)), Seen::Refused(24)),
];

const PIECES: [(Step, Seen); 20] = [
    (Step::File(WITHOUT_A_CERTIFICATE), Seen::Number(0)),
    (Step::On(0, Event::Check(FIRST)), Seen::Refused(26)),
    (Step::File(READ_AFTER_ITS_WRITE), Seen::Number(1)),
    (Step::File(THREE_OF_ONE_SESSION), Seen::Number(2)),
    (
        Step::On(2, Event::Check(SECOND)),
        Seen::Checked(2, SECOND, Outcome::Explained),
    ),
    (Step::On(2, Event::Put(0)), Seen::Done),
    (Step::Take, Seen::Piece(1, FIRST)),
    (Step::Take, Seen::Piece(1, FIRST_OF_SECOND)),
    (Step::Take, Seen::Piece(2, FIRST)),
    (Step::Take, Seen::Piece(2, THIRD)),
    (Step::Take, Seen::Nothing),
    (Step::Work, Seen::Number(0)),
    (Step::On(1, Event::Ask), Seen::Asked(Answer::Open(2))),
    (Step::On(2, Event::Ask), Seen::Asked(Answer::Open(2))),
    (Step::On(2, Event::Settle), Seen::Done),
    (Step::On(2, Event::Ask), Seen::Asked(Answer::Yes)),
    (Step::On(0, Event::Settle), Seen::Done),
    (Step::On(0, Event::Ask), Seen::Asked(Answer::Unknown(None))),
    (Step::On(1, Event::Ask), Seen::Asked(Answer::Open(2))),
    (Step::On(0, Event::Pattern), Seen::Pattern(None)),
];

const FULL: [(Step, Seen); 7] = [
    (Step::Fill(READ_AFTER_ITS_WRITE), Seen::Number(63)),
    (Step::File(WITHOUT_A_CERTIFICATE), Seen::Refused(22)),
    (
        Step::FileOrBack(WITHOUT_A_CERTIFICATE),
        Seen::Back(Criterion::Cm),
    ),
    (Step::On(63, Event::Ask), Seen::Asked(Answer::Open(2))),
    (Step::Work, Seen::Number(128)),
    (Step::On(63, Event::Ask), Seen::Asked(Answer::Yes)),
    (Step::File(NO_OPERATION), Seen::Refused(22)),
];

#[test]
fn desk_shows_verdicts(rt: HostRuntime) -> Result<(), Fail> {
    expect_ok(first_unwanted(&rt, &VERDICTS), None)
}

#[test]
fn desk_shows_patterns(rt: HostRuntime) -> Result<(), Fail> {
    expect_ok(first_unwanted(&rt, &PATTERNS), None)
}

#[test]
fn desk_shows_pieces(rt: HostRuntime) -> Result<(), Fail> {
    expect_ok(first_unwanted(&rt, &PIECES), None)
}

#[test]
fn desk_is_full(rt: HostRuntime) -> Result<(), Fail> {
    expect_ok(first_unwanted(&rt, &FULL), None)
}

/// Three cases are filed, the second without a certificate, and the third by the call that gives back the file.
const FILED: [(Step, Seen); 10] = [
    (Step::File(READ_AFTER_ITS_WRITE), Seen::Number(0)),
    (Step::On(0, Event::Ask), Seen::Asked(Answer::Open(2))),
    (Step::File(WITHOUT_A_CERTIFICATE), Seen::Number(1)),
    (Step::FileOrBack(NO_OPERATION), Seen::Number(2)),
    (Step::On(0, Event::Ask), Seen::Asked(Answer::Open(2))),
    (Step::On(1, Event::Ask), Seen::Asked(Answer::Unknown(None))),
    (Step::On(2, Event::Ask), Seen::Asked(Answer::Yes)),
    (Step::Take, Seen::Piece(0, FIRST)),
    (Step::Take, Seen::Piece(0, FIRST_OF_SECOND)),
    (Step::Take, Seen::Nothing),
];

/// `tests/process/refused_memory.py` refuses each allocation in turn. The test files a case once more where memory was refused.
#[test]
fn file(rt: HostRuntime) -> Result<(), Fail> {
    let unwanted = match first_unwanted(&rt, &FILED) {
        Ok(unwanted) => Ok(unwanted),
        Err(_refused) => first_unwanted(&rt, &FILED),
    };
    expect_ok(unwanted, None)
}

/// A case of three pieces is worked on, and worked on once more, and settled, where nothing is refused.
const WORKED_TWICE: [(Step, Seen); 7] = [
    (Step::File(THREE_OF_ONE_SESSION), Seen::Number(0)),
    (Step::Work, Seen::Number(3)),
    (Step::On(0, Event::Ask), Seen::Asked(Answer::Yes)),
    (Step::Work, Seen::Number(0)),
    (Step::On(0, Event::Ask), Seen::Asked(Answer::Yes)),
    (Step::On(0, Event::Settle), Seen::Done),
    (Step::On(0, Event::Ask), Seen::Asked(Answer::Yes)),
];

/// What is seen where the check of the first, the second or the third piece is refused memory: the piece that was taken then
/// stays open until the case is settled.
fn abandoned_at(piece: u32) -> [Seen; 7] {
    [
        Seen::Number(0),
        Seen::Refused(8),
        Seen::Asked(Answer::Open(3u32.saturating_sub(piece))),
        Seen::Number(2u32.saturating_sub(piece)),
        Seen::Asked(Answer::Open(1)),
        Seen::Done,
        Seen::Asked(Answer::Yes),
    ]
}

/// Prints what was seen where memory was refused. The gate sees no refusal; `tests/process/refused_memory.py` refuses each allocation in
/// turn, and has to see each piece abandoned.
#[test]
fn abandoned(rt: HostRuntime) -> Result<(), Fail> {
    let seen = match seen_at_desk::<Memory, HostRuntime>(&rt, &WORKED_TWICE) {
        Ok(seen) => seen,
        Err(_refused) => seen_at_desk::<Memory, HostRuntime>(&rt, &WORKED_TWICE)?,
    };
    if first_other(&WORKED_TWICE, seen.as_slice()).is_some() {
        println!(rt; "{seen:?}")?;
        expect_same(is_abandoned(seen.as_slice()), true)?;
    }
    Ok(())
}

/// Whether this is seen where the check of a piece is refused memory.
fn is_abandoned(seen: &[Seen]) -> bool {
    for piece in 0..3 {
        if seen == abandoned_at(piece).as_slice() {
            return true;
        }
    }
    false
}

/// The number of the first step at the desk of a memory of which something else is seen than wanted.
fn first_unwanted<P: Wait + AllocGlobal>(
    rt: &P,
    steps: &[(Step, Seen)],
) -> Result<Option<usize>, AllocError> {
    let seen = seen_at_desk::<Memory, P>(rt, steps)?;
    Ok(first_other(steps, seen.as_slice()))
}

/// The number of the first step of which something else is seen than wanted.
fn first_other(steps: &[(Step, Seen)], seen: &[Seen]) -> Option<usize> {
    for (number, (_, wanted)) in steps.iter().enumerate() {
        if seen.get(number) != Some(wanted) {
            return Some(number);
        }
    }
    None
}

/// What is seen of each step at a desk.
fn seen_at_desk<O: Filed, P: Wait + AllocGlobal>(
    rt: &P,
    steps: &[(Step, Seen)],
) -> Result<Vec<Seen>, AllocError> {
    let shelf = Shelf::new(rt.alloc())?;
    seen_on::<O, Brand, P>(rt, shelf, steps)
}

/// The same on a shelf that is named.
fn seen_on<O: Filed, K: ShelfName, P: Wait + AllocGlobal>(
    rt: &P,
    shelf: Shelf<O>,
    steps: &[(Step, Seen)],
) -> Result<Vec<Seen>, AllocError>
    requires { shelf ≡ K.shelf }
{
    let desk = Desk::<O, K>::on(rt.alloc(), shelf)?;
    let mut given = Given::none(rt.alloc());
    let seen = seen_of_all(rt, &desk, &mut given, steps);
    drop(given);
    drop(desk);
    seen
}

/// What is seen of each step at a desk.
fn seen_of_all<O: Filed, K: ShelfName, P: Wait + AllocGlobal>(
    rt: &P,
    desk: &Desk<O, K>,
    given: &mut Given<O, K>,
    steps: &[(Step, Seen)],
) -> Result<Vec<Seen>, AllocError> {
    let mut all = Vec::new(rt.alloc());
    for (step, _) in steps {
        all.push(seen_of(rt, desk, given, *step)?)?;
    }
    Ok(all)
}

/// The tickets and the verdicts that a desk has given.
#[derive(Drop)]
struct Given<O: Refutable, K: ShelfName> {
    tickets: Vec<Ticket<O, K>>,
    verdicts: Vec<Verdict<O, K>>,
}

impl<O: Refutable, K: ShelfName> Given<O, K> {
    /// None yet.
    fn none(alloc: Global) -> Given<O, K> {
        Given {
            tickets: Vec::new(alloc),
            verdicts: Vec::new(alloc),
        }
    }
}

/// What the tests see of a step.
fn seen_of<O: Filed, K: ShelfName, P: Wait + AllocGlobal>(
    rt: &P,
    desk: &Desk<O, K>,
    given: &mut Given<O, K>,
    step: Step,
) -> Result<Seen, AllocError> {
    match step {
        Step::File(text) => filed(rt, desk, given, text),
        Step::FileOrBack(text) => filed_or_back(rt, desk, given, text),
        Step::Fill(text) => filled(rt, desk, given, text),
        Step::Take => Ok(taken(rt, desk)),
        Step::Work => Ok(worked(rt, desk)),
        Step::On(case, event) => seen_on_number(rt, desk, given, case, event),
    }
}

/// What is seen of an event on the case of a number.
fn seen_on_number<O: Filed, K: ShelfName, P: Wait + AllocGlobal>(
    rt: &P,
    desk: &Desk<O, K>,
    given: &mut Given<O, K>,
    case: usize,
    event: Event,
) -> Result<Seen, AllocError> {
    match given.tickets.get(case) {
        Some(ticket) => {
            let ticket = ticket.again();
            let seen = seen_on_case(rt, desk, given, &ticket, event);
            drop(ticket);
            seen
        }
        None => Ok(Seen::Nothing),
    }
}

/// What is seen of an event on a case.
fn seen_on_case<O: Filed, K: ShelfName, P: Wait + AllocGlobal>(
    rt: &P,
    desk: &Desk<O, K>,
    given: &mut Given<O, K>,
    ticket: &Ticket<O, K>,
    event: Event,
) -> Result<Seen, AllocError> {
    match event {
        Event::Check(op) => checked(desk, given, ticket, op),
        Event::Put(verdict) => Ok(put(rt, desk, given, ticket, verdict)),
        Event::Ask => Ok(Seen::Asked(desk.ask(rt, ticket))),
        Event::Refute(read) => Ok(refuted(rt, desk, ticket, read)),
        Event::Pattern => kept(rt, desk, ticket),
        Event::Settle => Ok(done(desk.settle(rt, ticket))),
    }
}

/// Files a case, once more where memory was refused: later steps show whether the refusal left the board as it was.
fn filed<O: Filed, K: ShelfName, P: Wait + AllocGlobal>(
    rt: &P,
    desk: &Desk<O, K>,
    given: &mut Given<O, K>,
    text: FileText,
) -> Result<Seen, AllocError> {
    match filed_once(rt, desk, given, text)? {
        Seen::Refused(8) => filed_once(rt, desk, given, text),
        seen => Ok(seen),
    }
}

/// Files a case.
fn filed_once<O: Filed, K: ShelfName, P: Wait + AllocGlobal>(
    rt: &P,
    desk: &Desk<O, K>,
    given: &mut Given<O, K>,
    text: FileText,
) -> Result<Seen, AllocError> {
    let Some(file) = O::filed(rt.alloc(), text) else {
        return Err(AllocError);
    };
    match desk.file(rt, file) {
        Ok(ticket) => with_ticket(given, ticket),
        Err(refused) => Ok(Seen::Refused(refused.number())),
    }
}

/// Files a case by the call that gives the file back where there is no room.
fn filed_or_back<O: Filed, K: ShelfName, P: Wait + AllocGlobal>(
    rt: &P,
    desk: &Desk<O, K>,
    given: &mut Given<O, K>,
    text: FileText,
) -> Result<Seen, AllocError> {
    let Some(file) = O::filed(rt.alloc(), text) else {
        return Err(AllocError);
    };
    match desk.file_or_back(rt, file) {
        Ok(ticket) => with_ticket(given, ticket),
        Err(Some(file)) => {
            let criterion = file.criterion();
            drop(file);
            Ok(Seen::Back(criterion))
        }
        Err(None) => filed_once(rt, desk, given, text),
    }
}

/// Files a case 64 times. Returns what is seen of the last.
fn filled<O: Filed, K: ShelfName, P: Wait + AllocGlobal>(
    rt: &P,
    desk: &Desk<O, K>,
    given: &mut Given<O, K>,
    text: FileText,
) -> Result<Seen, AllocError> {
    let mut last = Seen::Nothing;
    for _case in 0..64 {
        last = filed_once(rt, desk, given, text)?;
    }
    Ok(last)
}

/// Keeps a ticket.
fn with_ticket<O: Refutable, K: ShelfName>(
    given: &mut Given<O, K>,
    ticket: Ticket<O, K>,
) -> Result<Seen, AllocError> {
    let number = ticket.number();
    given.tickets.push(ticket)?;
    Ok(Seen::Number(number))
}

/// Takes a piece.
fn taken<O: Refutable, K: ShelfName, P: Wait>(rt: &P, desk: &Desk<O, K>) -> Seen {
    match desk.take(rt) {
        Some((ticket, op)) => Seen::Piece(ticket.number(), op),
        None => Seen::Nothing,
    }
}

/// Works.
fn worked<O: Refutable, K: ShelfName, P: Wait>(rt: &P, desk: &Desk<O, K>) -> Seen {
    match desk.work(rt, &OpenGate) {
        Ok(put) => Seen::Number(put),
        Err(refused) => Seen::Refused(refused.number()),
    }
}

/// Checks an operation, and keeps the verdict.
fn checked<O: Refutable, K: ShelfName>(
    desk: &Desk<O, K>,
    given: &mut Given<O, K>,
    ticket: &Ticket<O, K>,
    op: OpId,
) -> Result<Seen, AllocError> {
    match desk.check(ticket, op) {
        Ok(verdict) => {
            let seen = Seen::Checked(verdict.case(), verdict.op(), verdict.outcome());
            given.verdicts.push(verdict)?;
            Ok(seen)
        }
        Err(refused) => Ok(Seen::Refused(refused.number())),
    }
}

/// Puts a verdict once more.
fn put<O: Refutable, K: ShelfName, P: Wait>(
    rt: &P,
    desk: &Desk<O, K>,
    given: &Given<O, K>,
    ticket: &Ticket<O, K>,
    verdict: usize,
) -> Seen {
    match given.verdicts.get(verdict) {
        Some(verdict) => done(desk.put(rt, ticket, verdict.again())),
        None => Seen::Nothing,
    }
}

/// Puts the pattern of a read of a value that nobody wrote.
fn refuted<O: Refutable, K: ShelfName, P: Wait>(
    rt: &P,
    desk: &Desk<O, K>,
    ticket: &Ticket<O, K>,
    read: OpId,
) -> Seen {
    done(desk.refute(rt, ticket, Pattern::ThinAirRead(read)))
}

/// The pattern that a case keeps.
fn kept<O: Refutable, K: ShelfName, P: Wait>(
    rt: &P,
    desk: &Desk<O, K>,
    ticket: &Ticket<O, K>,
) -> Result<Seen, AllocError> {
    match desk.pattern(rt, ticket) {
        Ok(Some(Pattern::ThinAirRead(read))) => Ok(Seen::Pattern(Some(read))),
        Ok(Some(other)) => {
            drop(other);
            Ok(Seen::Nothing)
        }
        Ok(None) => Ok(Seen::Pattern(None)),
        Err(_no_memory) => Err(AllocError),
    }
}

/// How an event without a value ended.
fn done(ended: Result<(), DeskError>) -> Seen {
    match ended {
        Ok(()) => Seen::Done,
        Err(refused) => Seen::Refused(refused.number()),
    }
}
