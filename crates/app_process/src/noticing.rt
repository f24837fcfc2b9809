//! What is noticed of lines each of which is to hold a history.

ghost use Rattle.std.specs.Prelude.{◌≡◌, IfOk, fold, string_bytes};
ghost use Rattle.app_process.specs.LineRemarks.{blank_remark, broken_remark, is_broken, no_bytes, refuses, seen, seen_in_text};
ghost use Rattle.app_process.specs.LineRemarks.{seen_outside};
ghost use Rattle.app_process.specs.Steps.Noticing.{all_ended, line_ended, nothing, noticed_byte, or_this, remarks_in};

use app_orders::BlankLines;
use json_lines::Source;
use std::alloc::{AllocError, Global};
use std::io;

/// A source of the bytes of a reader, which notices lines that hold no history for a reason that is often met: the first blank one, and
/// the first in which brackets or a text are not closed, as where one history is broken over several lines.
#[derive(Drop)]
pub(crate) struct Noticing<R> {
    reader: R,
    noticed: Noticed,
}

impl<R> Noticing<R> {
    /// A source of the same bytes. Blank lines are noticed where they are refused.
    pub(crate) fn of(blank: BlankLines, reader: R) -> Noticing<R>
        ensures reader { result.reader ≡ reader }
        ensures noticed { result.noticed ≡ nothing blank }
    {
        Noticing {
            reader,
            noticed: Noticed::nothing(blank),
        }
    }

    /// What is said of the lines that were noticed, in a line each, once there is nothing more to read.
    pub(crate) fn remarks(&self, alloc: Global) -> Result<String, AllocError>
        ensures { IfOk result (λ text. string_bytes text ≡ remarks_in (all_ended self.now.noticed)) }
    {
        self.noticed.ended_whole().remarks(alloc)
    }
}

impl<R: Source> Source for Noticing<R> {
    ghost use Rattle.app_process.specs.Steps.Noticing.{Notices};
    ghost use Rattle.app_process.specs.Steps.Readers.{PassesRead};

    ghost remaining = { λ noticing. R.remaining noticing.reader };

    ghost called = { λ old outcome new. Notices (R.remaining old.reader) (R.remaining new.reader) old.noticed new.noticed
        × PassesRead R.called old.reader outcome new.reader };

    fn call(&mut self, buffer: &mut [u8]) -> io::Result<usize> {
        match self.reader.call(buffer) {
            Ok(count) => {
                self.noticed.see_all(&buffer[..count]);
                Ok(count)
            }
            Err(error) => Err(error),
        }
    }
}

/// The lines that were noticed.
#[derive(Clone, Copy)]
pub struct Noticed {
    /// Which blank lines are noticed.
    pub blank: BlankLines,
    /// How many lines ended so far.
    pub ended: u64,
    /// The line that has not ended.
    pub line: LineSoFar,
    /// The number of the first blank line.
    pub first_blank: Option<u64>,
    /// The number of the first line that ends in the midst of a JSON text.
    pub first_broken: Option<u64>,
}

impl Noticed {
    fn nothing(blank: BlankLines) -> Noticed
        ensures { result ≡ nothing blank }
    {
        Noticed {
            blank,
            ended: 0,
            line: LineSoFar::nothing(),
            first_blank: None,
            first_broken: None,
        }
    }

    // The same, once the last line ended.
    fn ended_whole(self) -> Noticed
        ensures { result ≡ all_ended self }
    {
        if self.line.is_begun {
            self.with_ended(self.line)
        } else {
            self
        }
    }

    // What is said of the lines that were noticed.
    fn remarks(self, alloc: Global) -> Result<String, AllocError>
        ensures { IfOk result (λ text. string_bytes text ≡ remarks_in self) }
    {
        let blank = remark_on_blank(alloc, self.first_blank)?;
        let broken = remark_on_broken(alloc, self.first_broken)?;
        format!(in alloc; "{blank}{broken}")
    }

    fn see_all(&mut self, bytes: &[u8])
        ensures { self.new ≡ fold noticed_byte self.old bytes.now }
    {
        for byte in bytes {
            *self = self.with_byte(*byte);
        }
    }

    // The same, with one byte more.
    fn with_byte(self, byte: u8) -> Noticed
        ensures { result ≡ noticed_byte self byte }
    {
        if byte == b'\n' {
            Noticed {
                line: LineSoFar::nothing(),
                ..self.with_ended(self.line)
            }
        } else {
            Noticed {
                line: self.line.with_byte(byte),
                ..self
            }
        }
    }

    // The same, where a line ends: it is noticed where it is the first of its kind.
    fn with_ended(self, line: LineSoFar) -> Noticed
        ensures { result ≡ line_ended self line }
    {
        let ended = self.ended.saturating_add(1);
        let is_noticed_blank = line.is_blank & refuses(self.blank);
        let is_noticed_broken = !line.is_blank & line.is_broken();
        Noticed {
            blank: self.blank,
            ended,
            line: self.line,
            first_blank: or_this(self.first_blank, is_noticed_blank, ended),
            first_broken: or_this(self.first_broken, is_noticed_broken, ended),
        }
    }
}

// Whether blank lines are refused.
fn refuses(blank: BlankLines) -> bool
    ensures { result ≡ refuses blank }
{
    match blank {
        BlankLines::Refused => true,
        BlankLines::Skipped => false,
    }
}

// The first line that was found, or this one where it is such.
fn or_this(found: Option<u64>, is_so: bool, line: u64) -> Option<u64>
    ensures { result ≡ or_this found is_so line }
{
    match found {
        Some(first) => Some(first),
        None => { if is_so { Some(line) } else { None } }
    }
}

fn remark_on_blank(alloc: Global, line: Option<u64>) -> Result<String, AllocError>
    ensures { IfOk result (λ text. string_bytes text ≡ blank_remark line) }
{
    match line {
        Some(line) => format!(in alloc;
            "line {line} is blank: with --skip-blank a blank line answers it\n"
        ),
        None => Ok(String::new(alloc)),
    }
}

fn remark_on_broken(alloc: Global, line: Option<u64>) -> Result<String, AllocError>
    ensures { IfOk result (λ text. string_bytes text ≡ broken_remark line) }
{
    match line {
        Some(line) => format!(in alloc;
            "line {line} ends in the midst of a JSON text: with --lines each line holds a whole history\n"
        ),
        None => Ok(String::new(alloc)),
    }
}

/// What the bytes of a line so far have open.
#[derive(Clone, Copy)]
pub struct LineSoFar {
    /// Whether it has any.
    pub is_begun: bool,
    /// Whether it has nothing but blanks.
    pub is_blank: bool,
    /// How many brackets are open.
    pub depth: u64,
    /// Whether a bracket was closed that was not open.
    pub is_over_closed: bool,
    /// Whether a text is open.
    pub is_in_text: bool,
    /// Whether the last byte of that text escapes the next.
    pub is_escaped: bool,
}

impl LineSoFar {
    fn nothing() -> LineSoFar
        ensures { result ≡ no_bytes }
    {
        LineSoFar {
            is_begun: false,
            is_blank: true,
            depth: 0,
            is_over_closed: false,
            is_in_text: false,
            is_escaped: false,
        }
    }

    fn is_broken(self) -> bool
        ensures { result ≡ is_broken self }
    {
        self.is_in_text | self.is_over_closed | (self.depth > 0)
    }

    // The same, with one byte more.
    fn with_byte(self, byte: u8) -> LineSoFar
        ensures { result ≡ seen self byte }
    {
        if self.is_in_text {
            self.with_byte_in_text(byte)
        } else {
            self.with_byte_outside(byte)
        }
    }

    fn with_byte_in_text(self, byte: u8) -> LineSoFar
        ensures { result ≡ seen_in_text self byte }
    {
        LineSoFar {
            is_begun: true,
            is_in_text: self.is_escaped | (byte != b'"'),
            is_escaped: (byte == b'\\') & !self.is_escaped,
            ..self
        }
    }

    fn with_byte_outside(self, byte: u8) -> LineSoFar
        ensures { result ≡ seen_outside self byte }
    {
        let line = LineSoFar {
            is_begun: true,
            is_blank: self.is_blank & json_lines::is_blank(&[byte]),
            ..self
        };
        match byte {
            b'"' => LineSoFar {
                is_in_text: true,
                ..line
            },
            b'[' | b'{' => LineSoFar {
                depth: line.depth.saturating_add(1),
                ..line
            },
            b']' | b'}' => LineSoFar {
                is_over_closed: line.is_over_closed | (line.depth == 0),
                depth: line.depth.saturating_sub(1),
                ..line
            },
            _ => line,
        }
    }
}
