//! Files that words name.

ghost use Rattle.std.specs.Prelude.{List, Option, ⊤, ℕ, IfOk, OnErr};

use crate::file_opening::{opened, rest_of};
use app_logs::Rest;
use json_lines::Source;
use std::io;
use std::io::Read;
use std::rt::Files;

/// The name of standard input among files.
pub(crate) const STANDARD_INPUT: &str = "-";

/// Where the files are that words name: those of the system, in the process, with `-` for standard input.
pub trait Open {
    /// A file that is open.
    type File: Source + Drop + Send;

    // A file of this name may be opened whose reads give these bytes, where they are known.
    ghost opens: { Self → List ℕ → Option (List ℕ) → Type 0 };

    // A file of this name may be found not to open.
    ghost lacks: { Self → List ℕ → Type 0 };

    /// Opens the file of a name, or says what is wrong with it.
    fn open(&self, name: &str) -> Result<Self::File, &'static str>
        ensures opened { IfOk result (λ file. opens self.now name.now (Self.File.remaining file)) }
        ensures lacking { OnErr result (lacks self.now name.now) };

    /// Whether the rest of a file is read where the judging of its log ends early.
    fn rest_of(&self, file: &Self::File) -> Rest;
}

/// The files of a process. No contract says what they hold.
#[derive(Clone, Copy)]
pub(crate) struct ProcessFiles<'a, P> {
    rt: &'a P,
}

impl<'a, P> ProcessFiles<'a, P> {
    /// The files of a process.
    pub(crate) fn of(rt: &'a P) -> ProcessFiles<'a, P> {
        ProcessFiles { rt }
    }
}

impl<P: Files + Input> Open for ProcessFiles<'_, P>
where
    P::Reader: Send,
    P::File: Send,
{
    type File = ProcessFile<P::Reader, P::File>;

    ghost opens = { λ _ _ _. ⊤ };

    ghost lacks = { λ _ _. ⊤ };

    fn open(&self, name: &str) -> Result<ProcessFile<P::Reader, P::File>, &'static str> {
        if name == STANDARD_INPUT {
            return Ok(ProcessFile::Standard(self.rt.reader()));
        }
        match opened(self.rt, name) {
            Ok(file) => Ok(ProcessFile::Named(file)),
            Err(fault) => Err(fault),
        }
    }

    fn rest_of(&self, file: &ProcessFile<P::Reader, P::File>) -> Rest {
        match file {
            ProcessFile::Standard(_) => Rest::Unread,
            ProcessFile::Named(file) => rest_of(file),
        }
    }
}

/// A file of a process that is open, or its standard input.
#[derive(Drop)]
pub(crate) enum ProcessFile<R, F> {
    /// Standard input.
    Standard(R),
    /// A file of a name.
    Named(F),
}

impl<R: Read, F: Read> Read for ProcessFile<R, F> {
    fn read(&mut self, buffer: &mut [u8]) -> io::Result<usize> {
        match self {
            ProcessFile::Standard(reader) => reader.read(buffer),
            ProcessFile::Named(file) => file.read(buffer),
        }
    }
}
