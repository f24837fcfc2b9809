//! A reader of bytes that were read before.

ghost use Rattle.std.specs.Prelude.{◌≡◌, []};
ghost use Rattle.std.specs.Io.KnownBytes.{Consumes, prepend_known};
ghost use Rattle.app_process.specs.Steps.Readers.{SparesCall};

use json_lines::Source;
use std::io;
use std::io::Read;

/// A reader of some bytes that were read of another reader before, and then of what that one has.
#[derive(Drop)]
pub(crate) struct ReadAhead<'a, R> {
    bytes: &'a [u8],
    /// How many calls may give of these bytes and make no read call.
    spare: u16,
    reader: R,
}

impl<'a, R> ReadAhead<'a, R> {
    /// A reader of these bytes, and then of what the reader has.
    pub(crate) fn of(bytes: &'a [u8], reader: R) -> ReadAhead<'a, R>
        ensures bytes { result.bytes ≡ bytes.entry }
        ensures reader { result.reader ≡ reader }
    {
        ReadAhead {
            bytes,
            spare: u16::MAX,
            reader,
        }
    }
}

impl<R: Source> ReadAhead<'_, R> {
    // Counts a call that gives of these bytes. So many are never made: each further one makes a read call of no byte.
    #[tactic(auto, using(crate::proofs::AheadLaws::spared, crate::proofs::AheadLaws::called_once, crate::proofs::AheadLaws::asked_none, crate::proofs::AheadLaws::nothing_taken))]
    fn count_call(&mut self)
        ensures bytes { self.new.bytes ≡ self.old.bytes }
        ensures taken { Consumes (R.remaining self.old.reader) (R.remaining self.new.reader) [] }
        ensures counted { SparesCall R.called self.old.spare self.new.spare self.old.reader self.new.reader }
    {
        match self.spare.checked_sub(1) {
            Some(spare) => self.spare = spare,
            None => {
                let _ = self.reader.call(&mut []);
            }
        }
    }
}

impl<R: Source> Source for ReadAhead<'_, R> {
    ghost use Rattle.app_process.specs.Steps.Readers.{PassesAhead};

    ghost remaining = { λ s. prepend_known s.bytes.now (R.remaining s.reader) };

    ghost called = { λ old outcome new. PassesAhead R.called old.spare new.spare old.reader outcome new.reader };

    #[tactic(auto, using(crate::proofs::AheadLaws::from_reader, crate::proofs::AheadLaws::no_room, crate::proofs::AheadLaws::from_bytes, crate::proofs::AheadLaws::passes_ahead, crate::proofs::AheadLaws::passes_on))]
    fn call(&mut self, buffer: &mut [u8]) -> io::Result<usize> {
        if self.bytes.is_empty() {
            return self.reader.call(buffer);
        }
        if buffer.is_empty() {
            return self.reader.call(buffer);
        }
        self.count_call();
        self.bytes.read(buffer)
    }
}
