//! Reading what comes next of a stream.
ghost use Rattle.std.specs.Prelude.{◌≡◌, ◌<◌, ◌≤◌, ◌+◌, [], true, false, IfErr, IfOk, OnOk, length, vec_len, drop};
ghost use Rattle.std.specs.Io.KnownBytes.{IsAtEnd};
ghost use Rattle.json_lines.specs.ReadCalls.{CallOutcome, IsFurther};
ghost use Rattle.json_lines.specs.Steps.{IsFree, Takes};
ghost use Rattle.json_line_workers.specs.Calls.{FillsBy, HandsOutBy, MoreBy, PassesBy};
ghost use Rattle.json_line_workers.specs.Pieces.{HandsOut, IsCut, IsNext, IsReading, Passes, Stops, HandsOutLong};

use crate::held::{Held, Stop};
use crate::job::Job;
use crate::place::Place;
use json_lines::{Fault, MAX_READ_CALLS, Source, drop_front, read_once};
use memchr::memchr;
use std::alloc::Global;

/// What comes next: lines, or one that is too long; and whether nothing comes after them.
#[derive(Drop)]
pub struct Next {
    /// The lines, and none where one is too long.
    pub bytes: Vec<u8>,
    /// Whether a line is too long.
    pub long: bool,
    /// Whether the end was found.
    pub last: bool,
}

/// Reads until lines are at hand, and returns those that are whole, or all at the end; or that a line is too long; or passes
/// over the rest of such a line.
///
/// It fails if memory runs out, or the reader fails, or no line ended in [`MAX_READ_CALLS`] calls. More than 2^64 bytes count as want of
/// memory.
pub(crate) fn next_lines<J: Job, R: Source>(
    alloc: Global,
    reader: &mut R,
    chunk: &mut [u8],
    held: &mut Held,
    most: usize,
) -> Result<Next, Fault>
    requires room { 0 < length chunk.old }
    requires reading { IsReading J.input held.old (R.remaining reader.old) }
    requires few { length held.old.bytes.items ≤ most + length chunk.old }
    ensures next { IfOk result (IsNext J.input most held.old.at held.new (R.remaining reader.new)) }
    ensures further { IsFurther (R.remaining reader.old) (R.remaining reader.new) }
    ensures calls { HandsOutBy R.called result reader.old reader.new }
    ensures few { length held.new.bytes.items ≤ most + length chunk.old }
{
    if held.at.inside {
        return rest_of_line::<J, R>(alloc, reader, chunk, held, most);
    }
    whole_lines::<J, R>(alloc, reader, chunk, held, most)
}

// Reads until lines are at hand, and returns those that are whole, or all at the end; or that a line is too long.
fn whole_lines<J: Job, R: Source>(
    alloc: Global,
    reader: &mut R,
    chunk: &mut [u8],
    held: &mut Held,
    most: usize,
) -> Result<Next, Fault>
    requires room { 0 < length chunk.old }
    requires reading { IsReading J.input held.old (R.remaining reader.old) }
    requires outside { held.old.at.inside ≡ false }
    requires few { length held.old.bytes.items ≤ most + length chunk.old }
    ensures next { IfOk result (IsNext J.input most held.old.at held.new (R.remaining reader.new)) }
    ensures further { IsFurther (R.remaining reader.old) (R.remaining reader.new) }
    ensures calls { HandsOutBy R.called result reader.old reader.new }
    ensures few { length held.new.bytes.items ≤ most + length chunk.old }
{
    match fill(reader, chunk, held, most)? {
        Stop::Lines => {
            let count = held.whole;
            hand_out(alloc, held, count, false)
        }
        Stop::End => {
            let count = held.bytes.len();
            hand_out(alloc, held, count, true)
        }
        Stop::TooLong => hand_out_long(alloc, held),
    }
}

// Reads until whole lines are held, or more bytes than are read of a line, or until the end.
fn fill<R: Source>(
    reader: &mut R,
    chunk: &mut [u8],
    held: &mut Held,
    most: usize,
) -> Result<Stop, Fault>
    requires room { 0 < length chunk.old }
    requires cut { IsCut held.old.whole held.old.bytes.items }
    requires few { length held.old.bytes.items ≤ most + length chunk.old }
    ensures taken { OnOk result (Takes (R.remaining reader.old) (R.remaining reader.new) held.old.bytes.items held.new.bytes.items) }
    ensures stop { IfOk result (λ stop. Stops most stop (R.remaining reader.new) held.new) }
    ensures further { IsFurther (R.remaining reader.old) (R.remaining reader.new) }
    ensures calls { FillsBy R.called result reader.old reader.new }
    ensures cut { OnOk result (IsCut held.new.whole held.new.bytes.items) }
    ensures at { OnOk result (held.new.at ≡ held.old.at) }
    ensures few { length held.new.bytes.items ≤ most + length chunk.old }
{
    for _ in 0..MAX_READ_CALLS {
        if let Some(stop) = held.stop(most) {
            return Ok(stop);
        }
        if read_more(reader, chunk, held)? {
            return Ok(Stop::End);
        }
    }
    held.stop(most).ok_or(Fault::Read)
}

// Makes one read call, and takes in what it gave. Returns whether it found the end.
fn read_more<R: Source>(reader: &mut R, chunk: &mut [u8], held: &mut Held) -> Result<bool, Fault>
    requires room { 0 < length chunk.old }
    requires cut { IsCut held.old.whole held.old.bytes.items }
    ensures taken { OnOk result (Takes (R.remaining reader.old) (R.remaining reader.new) held.old.bytes.items held.new.bytes.items) }
    ensures end { IfOk result (λ found. found ≡ true → IsAtEnd (R.remaining reader.new)) }
    ensures further { IsFurther (R.remaining reader.old) (R.remaining reader.new) }
    ensures call { (outcome : CallOutcome) × R.called reader.old outcome reader.new × MoreBy outcome result }
    ensures cut { OnOk result (IsCut held.new.whole held.new.bytes.items) }
    ensures at { held.new.at ≡ held.old.at }
    ensures few { length held.new.bytes.items ≤ length held.old.bytes.items + length chunk.old }
{
    match read_once(reader, chunk)? {
        None => Ok(true),
        Some(count) => {
            held.take_in(&chunk[..count])?;
            Ok(false)
        }
    }
}

// Hands out so many of the first bytes, in which the last line ends.
fn hand_out(alloc: Global, held: &mut Held, count: usize, last: bool) -> Result<Next, Fault>
    requires within { count ≤ vec_len held.old.bytes }
    requires free { IsFree (drop count held.old.bytes.items) }
    requires outside { held.old.at.inside ≡ false }
    ensures handed { IfOk result (HandsOut count last held.old held.new) }
    ensures error { IfErr result (λ e. e ≡ Fault.Memory) }
    ensures few { length held.new.bytes.items ≤ length held.old.bytes.items }
{
    let mut bytes = Vec::new(alloc);
    bytes.extend_from_slice(&held.bytes[..count])?;
    let Some(at) = held.at.at.checked_add(count as u64) else {
        return Err(Fault::Memory);
    };
    held.at.at = at;
    drop_front(&mut held.bytes, count);
    held.whole = 0;
    Ok(Next {
        bytes,
        long: false,
        last,
    })
}

// Returns that a line is too long, and lets go of its beginning.
fn hand_out_long(alloc: Global, held: &mut Held) -> Result<Next, Fault>
    ensures handed { IfOk result (HandsOutLong held.old held.new) }
    ensures error { IfErr result (λ e. e ≡ Fault.Memory) }
    ensures few { length held.new.bytes.items ≤ length held.old.bytes.items }
{
    let count = held.bytes.len();
    let Some(at) = held.at.at.checked_add(count as u64) else {
        return Err(Fault::Memory);
    };
    held.at.at = at;
    held.at.inside = true;
    held.bytes.clear();
    held.whole = 0;
    Ok(Next {
        bytes: Vec::new(alloc),
        long: true,
        last: false,
    })
}

// Reads on past the rest of a line.
fn rest_of_line<J: Job, R: Source>(
    alloc: Global,
    reader: &mut R,
    chunk: &mut [u8],
    held: &mut Held,
    most: usize,
) -> Result<Next, Fault>
    requires room { 0 < length chunk.old }
    requires reading { IsReading J.input held.old (R.remaining reader.old) }
    requires inside { held.old.at.inside ≡ true }
    ensures next { IfOk result (IsNext J.input most held.old.at held.new (R.remaining reader.new)) }
    ensures further { IsFurther (R.remaining reader.old) (R.remaining reader.new) }
    ensures calls { HandsOutBy R.called result reader.old reader.new }
    ensures few { length held.new.bytes.items ≤ length chunk.old }
{
    let (count, last) = pass_over(reader, chunk, held)?;
    let Some(at) = held.at.at.checked_add(count) else {
        return Err(Fault::Memory);
    };
    held.at.at = at;
    held.at.inside = false;
    Ok(Next {
        bytes: Vec::new(alloc),
        long: false,
        last,
    })
}

// Reads on past the next line feed, and holds what was read after it. Returns how many bytes came up to there, and whether the end was
// found first.
fn pass_over<R: Source>(
    reader: &mut R,
    chunk: &mut [u8],
    held: &mut Held,
) -> Result<(u64, bool), Fault>
    requires room { 0 < length chunk.old }
    requires nothing { held.old.bytes.items ≡ [] }
    requires cut { IsCut held.old.whole held.old.bytes.items }
    ensures passed { IfOk result (λ r. Passes (R.remaining reader.old) (R.remaining reader.new) r.0 held.new.bytes.items r.1) }
    ensures further { IsFurther (R.remaining reader.old) (R.remaining reader.new) }
    ensures calls { PassesBy R.called result reader.old reader.new }
    ensures cut { OnOk result (IsCut held.new.whole held.new.bytes.items) }
    ensures at { OnOk result (held.new.at ≡ held.old.at) }
    ensures few { length held.new.bytes.items ≤ length chunk.old }
{
    let mut passed: u64 = 0;
    for _ in 0..MAX_READ_CALLS {
        let Some(count) = read_once(reader, chunk)? else {
            return Ok((passed, true));
        };
        let bytes = &chunk[..count];
        if let Some(at) = memchr(b'\n', bytes) {
            held.take_in(&bytes[at + 1..])?;
            return Ok((more_than(passed, at + 1)?, false));
        }
        passed = more_than(passed, count)?;
    }
    Err(Fault::Read)
}

// So many more.
fn more_than(count: u64, more: usize) -> Result<u64, Fault>
    ensures sum { IfOk result (λ sum. sum ≡ count + more) }
    ensures error { IfErr result (λ e. e ≡ Fault.Memory) }
{
    count.checked_add(more as u64).ok_or(Fault::Memory)
}
