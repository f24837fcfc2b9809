//! What lines are read from.
ghost use Rattle.std.specs.Prelude.{List, Option, ⊤, ℕ};
ghost use Rattle.std.specs.Io.KnownBytes.{ReadConsumes};
ghost use Rattle.std.specs.Io.{ReadsAtMost};
ghost use Rattle.json_lines.specs.ReadCalls.{CallOutcome};

use std::io;
use std::io::Read;

/// What bytes are read from, one read call after the other. Every [`Read`] is one.
///
/// A `Read` says nothing of its calls but which bytes they give. A source may say more of them. What is proved of a reading is
/// proved for every source, whatever it says; this is how the number of calls is proved.
pub trait Source {
    // The bytes that read calls will give from here on, where they are known.
    ghost remaining: { Self → Option (List ℕ) };

    // A read call may come from a state, by this outcome, to a state.
    ghost called: { Self → CallOutcome → Self → Type 0 };

    /// Makes one read call. It gives some bytes; it gives none only at the end or if there is no room.
    fn call(&mut self, buffer: &mut [u8]) -> io::Result<usize>
        ensures bound { ReadsAtMost result buffer.new }
        ensures bytes { ReadConsumes (remaining self.old) (remaining self.new) result buffer.new }
        ensures called { called self.old result self.new };
}

impl<R: Read> Source for R {
    ghost remaining = { R.remaining };

    ghost called = { λ _ _ _. ⊤ };

    fn call(&mut self, buffer: &mut [u8]) -> io::Result<usize> {
        self.read(buffer)
    }
}
