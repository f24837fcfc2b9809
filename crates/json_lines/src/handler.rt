//! Who answers lines.
ghost use Rattle.std.specs.Prelude.{◌≡◌, ℕ, List, IfErr, IfOk, OnErr};
ghost use Rattle.json_lines.specs.declared.outcome.Outcome.{Outcome as AnyOutcome};
ghost use Rattle.json_lines.specs.LineHandlers.{AppendsAnswer, SaysOfLonger};

use crate::fault::Fault;
use crate::outcome::Outcome;
use json::Scratch;
use std::alloc::Global;

/// Answers single lines, which come without their line feeds.
///
/// The handler reads lines of at most [`limit`](LineHandler::limit) bytes. It answers a longer line from its length alone.
pub trait LineHandler {
    // The text, without its line feed, answers the line, with this outcome.
    ghost says: { Self → List ℕ → List ℕ → AnyOutcome → Type 0 };

    // The most bytes of a line that is read.
    ghost most: { Self → ℕ };

    /// The most bytes of a line that is read.
    fn limit(&self) -> usize
        ensures { result ≡ most self.now };

    /// Appends the answer to a line, which may be of any length, and a line feed, and returns the outcome.
    ///
    /// JSON may be read in the scratch, which one line after the other uses. It fails for want of memory alone, and then the text
    /// is as it was.
    fn answer(
        &self,
        scratch: &mut Scratch<Global>,
        line: &[u8],
        text: &mut Vec<u8>,
    ) -> Result<Outcome, Fault>
        ensures answered { IfOk result (AppendsAnswer (says self.now line.now) text.old.items text.new.items) }
        ensures unchanged { OnErr result (text.new.items ≡ text.old.items) }
        ensures error { IfErr result (λ e. e ≡ Fault.Memory) };

    /// Appends the answer to every line that has more bytes than are read, and a line feed, and returns the outcome.
    ///
    /// It fails for want of memory alone, and then the text is as it was.
    fn answer_long(&self, text: &mut Vec<u8>) -> Result<Outcome, Fault>
        ensures answered { IfOk result (AppendsAnswer (SaysOfLonger (says self.now) (most self.now)) text.old.items text.new.items) }
        ensures unchanged { OnErr result (text.new.items ≡ text.old.items) }
        ensures error { IfErr result (λ e. e ≡ Fault.Memory) };
}
