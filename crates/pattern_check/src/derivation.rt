//! Derivations that one operation happened before another, line by line.

ghost use Rattle.std.specs.Prelude.{◌≡◌};

use crate::path::Path;
use model_history::OpId;
use std::marker::Model;

/// One line of a derivation for an operation. It gives a pair of operations: the first happened before the second.
///
/// Lines are numbered from 0, and a line refers to smaller numbers only.
#[derive(Debug, Drop)]
pub enum Line {
    /// The causal order. The first path, which has an edge, goes from one operation of the pair to the other, and the second
    /// path goes from there to the operation of the derivation.
    Co(Path, Path),
    /// Transitivity. The line of the first number gives `(a, b)` and that of the second gives `(b, c)`, and this line gives
    /// `(a, c)`.
    Tr(u64, u64),
    /// A read that is the operation of the derivation, or is before it in program order. The line of the number gives a write
    /// and this read, which reads from another write of the variable, and this line gives the first write and that one.
    Rf(u64, OpId),
}

/// Lines, each of which rests on lines before it. If they derive something, there are at least 1 and at most 100,000 of them.
#[derive(Debug, Drop)]
pub struct Derivation {
    lines: Vec<Line>,
}

impl Model for Derivation {
    ghost use Rattle.std.specs.Prelude.{List};
    ghost use Rattle.pattern_check.specs.declared.derivation.Line.{Line};

    ghost Value = { List Line };

    ghost view = { λ derivation. derivation.lines.items };
}

impl Derivation {
    /// The derivation of these lines.
    pub fn of(lines: Vec<Line>) -> Derivation
        ensures { result ≡ lines.items }
    {
        Derivation { lines }
    }

    /// The lines, in order.
    pub fn lines(&self) -> &[Line]
        ensures { result.now ≡ self.now }
    {
        self.lines.as_slice()
    }
}
