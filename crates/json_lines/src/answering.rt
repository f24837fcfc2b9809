//! Answering lines one after the other.
ghost use Rattle.std.specs.Prelude.{◌≡◌, ◌∷◌, ◌<◌, [], length, IfErr, IfOk, OnErr};
ghost use Rattle.json_lines.specs.Lines.{AreAnswered, FirstOf, IsPartOn, lines_of};

use crate::fault::Fault;
use crate::handler::LineHandler;
use crate::outcome::Outcome;
use crate::part::Part;
use json::Scratch;
use memchr::memchr;
use std::alloc::Global;

/// The answers to the lines of some bytes, made one after the other.
///
/// If a handler fails, it returns the answers to the lines before. O(n + m) for n bytes and m bytes of answers, and what the handler takes.
pub fn answer_alone<C: LineHandler>(alloc: Global, handler: &C, bytes: &[u8]) -> Part
    ensures { IsPartOn (C.says handler.now) (lines_of bytes.now) result }
{
    let mut text = Vec::new(alloc);
    let mut scratch = Scratch::new(alloc);
    let outcome = append_answers(handler, &mut scratch, bytes, &mut text);
    Part { text, outcome }
}

// Appends the answers to the lines of some bytes.
fn append_answers<C: LineHandler>(
    handler: &C,
    scratch: &mut Scratch<Global>,
    bytes: &[u8],
    text: &mut Vec<u8>,
) -> Result<Outcome, Fault>
    requires { text.old.items ≡ [] }
    ensures all { IfOk result (AreAnswered (C.says handler.now) (lines_of bytes.now) text.new.items) }
    ensures first { OnErr result (FirstOf (C.says handler.now) (lines_of bytes.now) text.new.items) }
    ensures error { IfErr result (λ e. e ≡ Fault.Memory) }
{
    let mut rest = bytes;
    let mut outcome = Outcome::Met;
    while !rest.is_empty() {
        let (line, behind) = first_line(rest);
        let one = handler.answer(scratch, line, text)?;
        outcome = outcome.worse(one);
        rest = behind;
    }
    Ok(outcome)
}

// The first line of some bytes, and what comes after it and its line feed.
fn first_line(bytes: &[u8]) -> (&[u8], &[u8])
    requires { 0 < length bytes.now }
    ensures lines { lines_of bytes.now ≡ result.0.now ∷ lines_of result.1.now }
    ensures shorter { length result.1.now < length bytes.now }
{
    match memchr(b'\n', bytes) {
        Some(at) => (&bytes[..at], &bytes[at + 1..]),
        None => (bytes, &[]),
    }
}
