//! What the record beside an installed program says of its build.

ghost use Rattle.std.specs.Prelude.{List, ℕ, ◌≡◌, ◌++◌, codes, string_bytes, IfOk};
ghost use Rattle.json_lines.specs.Lines.{ended};
ghost use Rattle.show_refusals.specs.Lines.{BeginsWith};
ghost use Rattle.app_process.specs.Usages.{IsGate, is_version};

use std::alloc::{AllocError, Global};
use std::rt::Files;
use std::{env, fs};

// What is said where no record is beside the program.
const NO_RECORD: &str = "gate unknown: no record of this build is beside the program";

/// The text, and if it is the version, whether the gate passed for this build, as the record of its package says.
#[tactic(auto, using(crate::proofs::UsageLaws::no_gate))]
pub(crate) fn with_gate<P: Files + AllocGlobal>(rt: &P, text: String) -> String
    ensures { (more : List ℕ) × IsGate (string_bytes text) more × (string_bytes result ≡ string_bytes text ++ more) }
{
    if !is_version(text.as_str()) {
        return text;
    }
    let record = record_of_build(rt);
    match joined(rt.alloc(), text.as_str(), line_of(&record)) {
        Ok(whole) => whole,
        Err(_) => text,
    }
}

// Whether a text is that of the version.
fn is_version(text: &str) -> bool
    ensures { result ≡ is_version text.now }
{
    text.as_bytes().starts_with(b"causal_judge ")
}

// A text and a line after it.
fn joined(alloc: Global, text: &str, line: &str) -> Result<String, AllocError>
    ensures { IfOk result (λ whole. string_bytes whole ≡ text.now ++ ended line.now) }
{
    format!(in alloc; "{text}{line}\n")
}

// The line on the gate.
fn line_of(record: &Option<String>) -> &str
    ensures { BeginsWith (codes "gate ") result.now }
{
    match record {
        Some(record) => gate_line(record.as_str()),
        None => NO_RECORD,
    }
}

// The line of a record on the gate.
fn gate_line(record: &str) -> &str
    ensures { BeginsWith (codes "gate ") result.now }
{
    for line in record.lines() {
        if line.starts_with("gate ") {
            return line;
        }
    }
    NO_RECORD
}

// The record that a package has, in the folder of its documents.
fn record_of_build<P: Files + AllocGlobal>(rt: &P) -> Option<String> {
    let program = env::current_exe(rt).ok()?;
    let above = program.as_path().parent()?.parent()?;
    let record = above.join(rt.alloc(), "share/doc/causal-judge/BUILD").ok()?;
    fs::read_to_string(rt, record.as_path()).ok()
}
