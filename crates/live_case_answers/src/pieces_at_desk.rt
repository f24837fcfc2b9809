//! The pieces of a certificate, checked by threads at a desk or one by one.

ghost use Rattle.std.specs.Prelude.{◌≡◌, IfErr, IfOk, IsSome};
ghost use Rattle.live_case_answers.specs.Shown.{IsSaidOfFile};

use cert_check::{CaseFile, DeskError, first_unexplained};
use judge_workers::Gate;
use live_case_desk::{Answer, Desk, Shelf, ShelfName, Ticket};
use model_object_trait::SeqObject;
use pattern_check::Refutable;
use std::alloc::Global;
use std::marker::Brand;
use std::sync::Wait;
use std::thread;
use std::thread::Threads;

/// What the certificate of a case file shows: `Yes` where every piece explains its operation, and else `Unknown` with the first operation
/// whose piece does not; `Unknown` with no operation where there is no certificate.
///
/// So many workers, threads that are started for it, take the pieces from a desk that is made for the file alone. Each of their checks
/// is between `enter` and `leave` of the gate. The calling thread checks what they leave, and calls the gate for none of that.
///
/// Fails for want of memory alone, and the file is dropped in any case. The cost is that of `first_unexplained`.
pub fn answer_of_file<O: Refutable + Send + Sync, R: Threads + Wait + Sync, G: Gate>(
    rt: &R,
    alloc: Global,
    file: CaseFile<O>,
    workers: usize,
    gate: &G,
) -> Result<Answer, DeskError>
    ensures said { IfOk result (IsSaidOfFile O.answer file) }
    ensures error { IfErr result (λ e. e ≡ DeskError.Memory) }
{
    if file.certificate().is_none() {
        drop(file);
        return Ok(Answer::Unknown(None));
    }
    match Shelf::new(alloc) {
        Ok(shelf) => answer_on::<O, Brand, R, G>(rt, alloc, shelf, file, workers, gate),
        Err(_no_memory) => {
            drop(file);
            Err(DeskError::Memory)
        }
    }
}

/// The same at a desk on a shelf that is named. Where the desk has no room for the case, its pieces are checked here.
fn answer_on<
    O: Refutable + Send + Sync,
    K: ShelfName + Send + Sync,
    R: Threads + Wait + Sync,
    G: Gate,
>(
    rt: &R,
    alloc: Global,
    shelf: Shelf<O>,
    file: CaseFile<O>,
    workers: usize,
    gate: &G,
) -> Result<Answer, DeskError>
    requires named { shelf ≡ K.shelf }
    requires certificate { IsSome file.2 }
    ensures said { IfOk result (IsSaidOfFile O.answer file) }
    ensures error { IfErr result (λ e. e ≡ DeskError.Memory) }
{
    match Desk::<O, K>::on(alloc, shelf) {
        Ok(desk) => {
            let answer = answer_at(rt, alloc, &desk, file, workers, gate);
            drop(desk);
            answer
        }
        Err(_no_memory) => {
            drop(file);
            Err(DeskError::Memory)
        }
    }
}

/// The same at a desk.
fn answer_at<
    O: Refutable + Send + Sync,
    K: ShelfName + Send + Sync,
    R: Threads + Wait + Sync,
    G: Gate,
>(
    rt: &R,
    alloc: Global,
    desk: &Desk<O, K>,
    file: CaseFile<O>,
    workers: usize,
    gate: &G,
) -> Result<Answer, DeskError>
    requires { IsSome file.2 }
    ensures said { IfOk result (IsSaidOfFile O.answer file) }
    ensures error { IfErr result (λ e. e ≡ DeskError.Memory) }
{
    match desk.file_or_back(rt, file) {
        Ok(ticket) => {
            let answer = answer_of_ticket(rt, alloc, desk, &ticket, workers, gate);
            drop(ticket);
            answer
        }
        Err(Some(file)) => {
            let answer = answer_of_pieces(alloc, &file);
            drop(file);
            answer
        }
        Err(None) => Err(DeskError::Memory),
    }
}

/// What the certificate of a filed case shows. The workers check its pieces, and what they leave is settled. If the desk then
/// does not say what the pieces show, they are checked here.
fn answer_of_ticket<
    O: Refutable + Send + Sync,
    K: ShelfName + Send + Sync,
    R: Threads + Wait + Sync,
    G: Gate,
>(
    rt: &R,
    alloc: Global,
    desk: &Desk<O, K>,
    ticket: &Ticket<O, K>,
    workers: usize,
    gate: &G,
) -> Result<Answer, DeskError>
    requires { IsSome ticket.now.file.2 }
    ensures said { IfOk result (IsSaidOfFile O.answer ticket.now.file) }
    ensures error { IfErr result (λ e. e ≡ DeskError.Memory) }
{
    let put = thread::map_indices(rt, alloc, workers, &|_| desk.work(rt, gate))?;
    drop(put);
    desk.settle(rt, ticket)?;
    match desk.ask(rt, ticket) {
        Answer::Yes => Ok(Answer::Yes),
        Answer::Unknown(place) => Ok(Answer::Unknown(place)),
        Answer::No(_) | Answer::Open(_) => answer_of_pieces(alloc, ticket.file(desk)),
    }
}

/// What the pieces of a certificate show, checked in their order by the calling thread.
///
/// Fails for want of memory alone. The cost is that of `first_unexplained`.
pub fn answer_of_pieces<O: SeqObject>(
    alloc: Global,
    file: &CaseFile<O>,
) -> Result<Answer, DeskError>
    requires { IsSome file.now.2 }
    ensures said { IfOk result (IsSaidOfFile O.answer file.now) }
    ensures error { IfErr result (λ e. e ≡ DeskError.Memory) }
{
    match first_unexplained(alloc, file)? {
        None => Ok(Answer::Yes),
        Some(op) => Ok(Answer::Unknown(Some(op))),
    }
}
