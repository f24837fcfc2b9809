//! Writing a pattern as a JSON value.

ghost use Rattle.std.specs.Prelude.{◌≡◌, IfOk};
ghost use Rattle.serde_json.specs.View.{view};
ghost use Rattle.pattern_json.specs.PatternForm.{form_of, lines_form, links_form, op_form, path_form};

use crate::written::{Written, list_value, worded_both, worded_one, worded_two};
use model_history::OpId;
use pattern_check::{Derivation, Line, Link, Links, Path, Pattern};
use serde_json::Value;
use std::alloc::{AllocError, Global};

/// The form of a pattern, which [`next_pattern`](crate::next_pattern) reads as that pattern.
///
/// Fails for want of memory alone. O(n) for n operations, links and lines of the pattern.
pub fn pattern_value(alloc: Global, pattern: &Pattern) -> Result<Value, AllocError>
    ensures form { IfOk result (λ value. view value ≡ form_of pattern.now) }
{
    let kind = pattern.kind().name();
    match pattern {
        Pattern::CyclicCO(path) | Pattern::WriteCOInitRead(path) => {
            worded_one(alloc, kind, path_value(alloc, path)?)
        }
        Pattern::ThinAirRead(read) => worded_one(alloc, kind, op_value(alloc, *read)?),
        Pattern::WriteCORead(first, second) => {
            worded_both(
                alloc,
                kind,
                path_value(alloc, first),
                path_value(alloc, second),
            )
        }
        Pattern::WriteHBInitRead(op, lines) | Pattern::CyclicHB(op, lines) => {
            worded_both(alloc, kind, op_value(alloc, *op), lines_value(alloc, lines))
        }
        Pattern::CyclicCF(links) => worded_one(alloc, kind, links_value(alloc, links)?),
    }
}

/// The form of an operation: its session and its index.
///
/// Fails for want of memory alone. O(1).
pub fn op_value(alloc: Global, op: OpId) -> Result<Value, AllocError>
    ensures form { IfOk result (λ value. view value ≡ op_form op) }
{
    let session = Value::from(op.session);
    Ok(Value::Array(vec![in alloc; session, Value::from(op.index)]?))
}

// The form of a path.
fn path_value(alloc: Global, path: &Path) -> Result<Value, AllocError>
    ensures { IfOk result (λ value. view value ≡ path_form path.now) }
{
    list_value(alloc, path.ops())
}

// The form of links.
fn links_value(alloc: Global, links: &Links) -> Result<Value, AllocError>
    ensures { IfOk result (λ value. view value ≡ links_form links.now) }
{
    list_value(alloc, links.links())
}

// The form of the lines of a derivation.
fn lines_value(alloc: Global, derivation: &Derivation) -> Result<Value, AllocError>
    ensures { IfOk result (λ value. view value ≡ lines_form derivation.now) }
{
    list_value(alloc, derivation.lines())
}

impl Written for OpId {
    ghost use Rattle.pattern_json.specs.PatternForm.{op_form};

    ghost form = { op_form };

    fn value(&self, alloc: Global) -> Result<Value, AllocError> {
        op_value(alloc, *self)
    }
}

impl Written for Link {
    ghost use Rattle.pattern_json.specs.PatternForm.{link_form};

    ghost form = { link_form };

    fn value(&self, alloc: Global) -> Result<Value, AllocError> {
        match self {
            Link::Co(a, b) => worded_both(alloc, "co", op_value(alloc, *a), op_value(alloc, *b)),
            Link::Cf(path, b) => {
                worded_both(alloc, "cf", path_value(alloc, path), op_value(alloc, *b))
            }
        }
    }
}

impl Written for Line {
    ghost use Rattle.pattern_json.specs.PatternForm.{line_form};

    ghost form = { line_form };

    fn value(&self, alloc: Global) -> Result<Value, AllocError> {
        match self {
            Line::Co(first, second) => {
                worded_both(
                    alloc,
                    "co",
                    path_value(alloc, first),
                    path_value(alloc, second),
                )
            }
            Line::Tr(first, second) => {
                worded_two(alloc, "tr", Value::from(*first), Value::from(*second))
            }
            Line::Rf(number, read) => {
                worded_both(
                    alloc,
                    "rf",
                    Ok(Value::from(*number)),
                    op_value(alloc, *read),
                )
            }
        }
    }
}
