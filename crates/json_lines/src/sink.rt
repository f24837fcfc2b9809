//! What answers are written to.
ghost use Rattle.std.specs.Prelude.{List, Option, ⊤, ℕ};
ghost use Rattle.std.specs.Io.KnownBytes.{Keeps, WriteAppends};
ghost use Rattle.std.specs.Io.{WritesAtMost};
ghost use Rattle.json_lines.specs.WriteCalls.{SinkCall, pass_on, take_of};

use std::io;
use std::io::Write;

/// What bytes are written to, one call after the other. Every [`Write`] is one.
///
/// A `Write` says nothing of its calls but which bytes they take. A sink may say more of them. What is proved of a writing is
/// proved for every sink, whatever it says; this is how it is proved that a write fault comes only where a call failed.
pub trait Sink {
    // The bytes that the sink holds, where they are known.
    ghost contents: { Self → Option (List ℕ) };

    // A call may come from a state to a state.
    ghost called: { Self → SinkCall → Self → Type 0 };

    /// Takes some of these bytes, and returns how many.
    fn call_write(&mut self, bytes: &[u8]) -> io::Result<usize>
        ensures bound { WritesAtMost result bytes.now }
        ensures bytes { WriteAppends (contents self.old) (contents self.new) result bytes.now }
        ensures called { called self.old (take_of bytes.now result) self.new };

    /// Passes on what it took.
    fn call_flush(&mut self) -> io::Result<()>
        ensures bytes { Keeps (contents self.old) (contents self.new) }
        ensures called { called self.old (pass_on result) self.new };
}

impl<W: Write> Sink for W {
    ghost contents = { W.contents };

    ghost called = { λ _ _ _. ⊤ };

    fn call_write(&mut self, bytes: &[u8]) -> io::Result<usize> {
        self.write(bytes)
    }

    fn call_flush(&mut self) -> io::Result<()> {
        self.flush()
    }
}
