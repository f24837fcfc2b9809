//! Where answers are written.

ghost use Rattle.std.specs.Prelude.{◌≡◌};

use crate::painting::push_painted;
use crate::place::Place;
use crate::progress::Progress;
use json_lines::{Sink, write_whole};
use std::alloc::{AllocError, Global};
use std::io;
use std::io::Write;
use std::sync::Wait;

/// A writer of answers to another writer, which makes room for each where it is shown how far the work is.
#[derive(Drop)]
pub(crate) struct AnswerWriter<'a, P, W> {
    rt: &'a P,
    to: W,
    /// How far the work is, where that is shown.
    progress: Option<&'a Progress<'a>>,
}

impl<'a, P, W> AnswerWriter<'a, P, W> {
    /// A writer to another one.
    pub(crate) fn of(place: &Place<'a, P>, to: W) -> AnswerWriter<'a, P, W>
        ensures { result.to ≡ to }
    {
        AnswerWriter {
            rt: place.rt,
            to,
            progress: place.progress,
        }
    }

    /// What it writes to.
    pub(crate) fn into_inner(self) -> W
        ensures { result ≡ self.entry.to }
    {
        self.to
    }
}

impl<P: Eprint + Wait, W: Sink> Sink for AnswerWriter<'_, P, W> {
    ghost contents = { λ writer. W.contents writer.to };

    ghost called = { λ old call new. W.called old.to call new.to };

    fn call_write(&mut self, buffer: &[u8]) -> io::Result<usize> {
        if let Some(progress) = self.progress {
            progress.before_answer(self.rt);
        }
        let outcome = self.to.call_write(buffer);
        if let Some(progress) = self.progress {
            progress.after_answer(self.rt, ends_line(buffer, &outcome));
        }
        outcome
    }

    fn call_flush(&mut self) -> io::Result<()> {
        self.to.call_flush()
    }
}

// Whether what was written of some bytes ends with a whole line.
fn ends_line(bytes: &[u8], outcome: &io::Result<usize>) -> bool {
    match outcome {
        Ok(count) => bytes.iter().take(*count).next_back() == Some(&b'\n'),
        Err(_) => true,
    }
}

/// How the lines of an answer are written.
#[derive(Clone, Copy)]
pub(crate) struct Dress<'a> {
    /// What is written before each line, with a colon after it.
    pub label: Option<&'a str>,
    /// Whether the words of answers are coloured.
    pub is_painted: bool,
}

/// A writer of answers whose lines are dressed.
#[derive(Drop)]
pub(crate) struct DressedWriter<'a, P, W> {
    inner: AnswerWriter<'a, P, W>,
    alloc: Global,
    dress: Dress<'a>,
    is_at_line_start: bool,
}

impl<'a, P: AllocGlobal, W> DressedWriter<'a, P, W> {
    /// A writer to another one.
    pub(crate) fn of(place: &Place<'a, P>, dress: Dress<'a>, to: W) -> DressedWriter<'a, P, W> {
        DressedWriter {
            inner: AnswerWriter::of(place, to),
            alloc: place.rt.alloc(),
            dress,
            is_at_line_start: true,
        }
    }
}

impl<P, W> DressedWriter<'_, P, W> {
    /// What it writes to.
    pub(crate) fn into_inner(self) -> W {
        self.inner.into_inner()
    }

    // The text as it is written.
    fn dressed(&mut self, text: &str) -> Result<String, AllocError> {
        let mut dressed = String::new(self.alloc);
        for line in text.split_inclusive('\n') {
            if let Some(label) = self.dress.label
                && self.is_at_line_start
            {
                dressed.push_str(label)?;
                dressed.push_str(": ")?;
            }
            if self.dress.is_painted {
                push_painted(&mut dressed, line)?;
            } else {
                dressed.push_str(line)?;
            }
            self.is_at_line_start = line.ends_with('\n');
        }
        Ok(dressed)
    }
}

impl<P: Eprint + Wait, W: Sink> DressedWriter<'_, P, W> {
    // Writes all of some bytes, with what comes before their lines.
    fn write_dressed(&mut self, bytes: &[u8]) -> io::Result<()> {
        match std::str::from_utf8(bytes) {
            Ok(text) => {
                let dressed = self.dressed(text)?;
                written(&mut self.inner, dressed.as_bytes())
            }
            Err(_) => written(&mut self.inner, bytes),
        }
    }
}

// Writes all of some bytes.
fn written<W: Sink>(writer: &mut W, bytes: &[u8]) -> io::Result<()> {
    match write_whole(writer, bytes) {
        Ok(()) => Ok(()),
        Err(_) => Err(io::Error::from(io::ErrorKind::Other)),
    }
}

// No clause says what it holds: its lines are not those that were written to it.
impl<P: Eprint + Wait, W: Sink> Write for DressedWriter<'_, P, W> {
    fn write(&mut self, buffer: &[u8]) -> io::Result<usize> {
        self.write_dressed(buffer)?;
        Ok(buffer.len())
    }

    fn flush(&mut self) -> io::Result<()> {
        self.inner.call_flush()
    }
}
