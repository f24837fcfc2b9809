//! Answering a stream by workers that live as long as it does.
ghost use Rattle.std.specs.Prelude.{◌≡◌, ◌≢◌, ◌<◌, Err, IfErr, IfOk, IfSome, OnErr, OnOk, vec_len};
ghost use Rattle.std.specs.Io.KnownBytes.{IsAtEnd};
ghost use Rattle.json_lines.specs.Lines.{AllAreAnswered, FirstAreAnswered, FirstAreBegun};
ghost use Rattle.json_lines.specs.ReadCalls.{CallsOnceAtMost, EndsBy, FindsNoEnd, IsEnd, IsFurther, ReadsOn};
ghost use Rattle.json_lines.specs.WriteCalls.{FailsToTake, IsPassedOn};
ghost use Rattle.json_line_workers.specs.Places.{Serves};

use crate::intake::Intake;
use crate::job::{Job, ReadFrom, WrittenTo};
use crate::outlet::Outlet;
use crate::piece::Done;
use json_lines::{Fault, LineHandler, MAX_READ_CALLS, MAX_WRITE_CALLS, Outcome, Sink, Source};
use std::alloc::Global;
use std::marker::Brand;
use std::sync::{Condvar, Mutex, Wait};
use std::thread::{Threads, map_indices};

// How many bytes a read call asks for.
const CHUNK_BYTES: usize = 16_384;

// How many answers wait for those before them, for each worker.
const AHEAD: usize = 16;

/// Answers each line of a stream with the answer of a handler, in order, by so many workers, and returns the reader, the writer, and the
/// outcome of all answers. The calling thread is one of the workers, and there is one at least.
///
/// As soon as whole lines are at hand, a worker takes them, answers them while the others read and answer on, and writes the answers
/// in their turn. So a client that writes lines and waits for their answers gets them, also where it has begun a further line. A line
/// that has more bytes than the handler reads is answered as too long as soon as that is known, and its rest is passed over.
///
/// It fails if memory runs out, or the reader or the writer fails, or no line ended in [`MAX_READ_CALLS`](lines::MAX_READ_CALLS) read
/// calls in a row. What was written is then the answers to some first lines, or a beginning of them if the writer failed. A read fault
/// comes only where a read call failed or those calls were made, and a write fault only where a write call failed. No read call is made
/// after the end or after one that failed. If the writer fails, or memory runs out for an answer, while a worker waits for input, it
/// returns only once that read call does.
///
/// It waits: in read and write calls, for locks that other workers have, and, where 16 answers for each worker wait for those before
/// them, for these. The contract holds if it returns.
///
/// O(n w + m) for n bytes that are read, m bytes that are written and w workers, and what the handler and the calls take. It holds the
/// bytes of one line and one read call, and the same again for each worker; and at most 16 answers for each worker that wait, where
/// an answer is to the lines of one read call, or to one line.
pub fn answer_lines<
    T: Threads + Wait + Sync,
    R: Source + Drop + Send,
    W: Sink + Drop + Send,
    C: LineHandler + Sync,
>(
    rt: &T,
    alloc: Global,
    reader: R,
    writer: W,
    handler: &C,
    workers: usize,
) -> (R, W, Result<Outcome, Fault>)
    ensures answered { IfOk result.2
        (AllAreAnswered (C.says handler.now) (R.remaining reader) (W.contents writer) (W.contents result.1)) }
    ensures end { OnOk result.2 (IsAtEnd (R.remaining result.0)) }
    ensures faulted { IfErr result.2 (λ e. e ≢ Fault.Write
        → FirstAreAnswered (C.says handler.now) (R.remaining reader) (W.contents writer) (W.contents result.1)) }
    ensures begun { OnErr result.2
        (FirstAreBegun (C.says handler.now) (R.remaining reader) (W.contents writer) (W.contents result.1)) }
    ensures further { IsFurther (R.remaining reader) (R.remaining result.0) }

    // Whatever the reader and the writer report of their calls.
    ensures calls { ReadsOn R.called (CallsOnceAtMost R.called) reader result.0 }
    ensures end_found { OnOk result.2 (ReadsOn R.called (EndsBy R.called MAX_READ_CALLS IsEnd) reader result.0) }
    ensures read_fault { result.2 ≡ Err Fault.Read → ReadsOn R.called (FindsNoEnd R.called MAX_READ_CALLS) reader result.0 }
    ensures passed_on { result.2 ≢ Err Fault.Write → IsPassedOn W.called writer result.1 }
    ensures write_fault { result.2 ≡ Err Fault.Write → FailsToTake W.called MAX_WRITE_CALLS writer result.1 }
{
    match chunk_of_zeros(alloc) {
        Ok(chunk) => {
            answer_as::<Brand, T, R, W, C>(rt, alloc, reader, writer, handler, chunk, workers)
        }
        Err(fault) => (reader, writer, Err(fault)),
    }
}

// What read calls write to.
fn chunk_of_zeros(alloc: Global) -> Result<Vec<u8>, Fault>
    ensures room { IfOk result (λ chunk. 0 < vec_len chunk) }
    ensures error { IfErr result (λ e. e ≡ Fault.Memory) }
{
    Ok(vec![in alloc; 0; CHUNK_BYTES]?)
}

// Answers a stream, by read calls that write to this chunk.
fn answer_as<
    J: Job + ReadFrom<R> + WrittenTo<W> + Send + Sync,
    T: Threads + Wait + Sync,
    R: Source + Drop + Send,
    W: Sink + Drop + Send,
    C: LineHandler + Sync,
>(
    rt: &T,
    alloc: Global,
    reader: R,
    writer: W,
    handler: &C,
    chunk: Vec<u8>,
    workers: usize,
) -> (R, W, Result<Outcome, Fault>)
    requires room { 0 < vec_len chunk }
    requires serves { Serves (C.says handler.now) (C.most handler.now) J.says J.most }
    requires input { R.remaining reader ≡ J.input }
    requires before { W.contents writer ≡ J.before }
    requires reader { IfSome J.reader (λ first. first ≡ reader) }
    requires writer { IfSome J.writer (λ first. first ≡ writer) }
    ensures answered { IfOk result.2 (AllAreAnswered J.says J.input J.before (W.contents result.1)) }
    ensures end { OnOk result.2 (IsAtEnd (R.remaining result.0)) }
    ensures faulted { IfErr result.2 (λ e. e ≢ Fault.Write → FirstAreAnswered J.says J.input J.before (W.contents result.1)) }
    ensures begun { OnErr result.2 (FirstAreBegun J.says J.input J.before (W.contents result.1)) }
    ensures further { IsFurther J.input (R.remaining result.0) }
    ensures calls { IfSome J.reader (λ first. ReadsOn R.called (CallsOnceAtMost R.called) first result.0) }
    ensures end_found { OnOk result.2
        (IfSome J.reader (λ first. ReadsOn R.called (EndsBy R.called MAX_READ_CALLS IsEnd) first result.0)) }
    ensures read_fault { result.2 ≡ Err Fault.Read
        → IfSome J.reader (λ first. ReadsOn R.called (FindsNoEnd R.called MAX_READ_CALLS) first result.0) }
    ensures passed_on { result.2 ≢ Err Fault.Write → IfSome J.writer (λ first. IsPassedOn W.called first result.1) }
    ensures write_fault { result.2 ≡ Err Fault.Write
        → IfSome J.writer (λ first. FailsToTake W.called MAX_WRITE_CALLS first result.1) }
{
    let intake: Mutex<Intake<J, R>> = Mutex::new(Intake::new(
        alloc,
        reader,
        chunk,
        handler.limit(),
    ));
    let outlet: Mutex<Outlet<J, W>> = Mutex::new(Outlet::new(alloc, writer));
    let moved = Condvar::new();
    let read = &intake;
    let written = &outlet;
    let waking = &moved;
    let ahead = workers.saturating_mul(AHEAD);
    let done = map_indices(
        rt,
        alloc,
        workers.max(1),
        &|_: usize| -> ()
            requires { Serves (C.says handler.now) (C.most handler.now) J.says J.most }
        { work(rt, alloc, read, written, waking, ahead, handler) },
    );
    let (reader, end) = intake.into_inner().ended();
    let end = match done {
        Ok(_) => end,
        Err(_) => Err(Fault::Memory),
    };
    let (writer, outcome) = outlet.into_inner().ended(end);
    (reader, writer, outcome)
}

// Takes lines and answers them until there are no more, or there was a fault.
fn work<
    J: Job + ReadFrom<R> + WrittenTo<W>,
    T: Threads + Wait + Sync,
    R: Source + Drop,
    W: Sink + Drop,
    C: LineHandler + Sync,
>(
    rt: &T,
    alloc: Global,
    intake: &Mutex<Intake<J, R>>,
    outlet: &Mutex<Outlet<J, W>>,
    moved: &Condvar,
    ahead: usize,
    handler: &C,
)
    requires { Serves (C.says handler.now) (C.most handler.now) J.says J.most }
{
    for _ in rt.forever() {
        let taken = intake.lock(rt).take(alloc);
        let Some(piece) = taken else {
            break;
        };
        let done = piece.answered(alloc, handler);
        if !hand_over(rt, outlet, moved, ahead, done) {
            break;
        }
    }
}

// Hands answers over. It waits while too many wait for those before them, and these are not next. Returns whether there was no fault.
fn hand_over<J: Job + WrittenTo<W>, T: Wait, W: Sink + Drop>(
    rt: &T,
    outlet: &Mutex<Outlet<J, W>>,
    moved: &Condvar,
    ahead: usize,
    done: Done<J>,
) -> bool {
    let from = done.from;
    let mut there = moved.wait_while(
        rt,
        outlet.lock(rt),
        |outlet| outlet.is_full_for(from, ahead),
    );
    there.take_over(done);
    moved.notify_all();
    !there.is_broken()
}
