//! A reader that tells how much was read.

ghost use Rattle.std.specs.Prelude.{◌≡◌};

use crate::place::Place;
use crate::progress::Progress;
use crate::waiting::Waiting;
use json_lines::Source;
use std::io;

/// A reader of the same bytes, which tells how many were read, where somebody shows it.
#[derive(Drop)]
pub(crate) struct Counted<'a, R> {
    reader: R,
    progress: Option<&'a Progress<'a>>,
}

/// A reader of the same bytes, which waits where a read would block, and tells how many were read.
pub(crate) fn counted_at<'a, P, R>(
    place: &Place<'a, P>,
    reader: R,
) -> Counted<'a, Waiting<'a, P, R>>
    ensures { result.reader.reader ≡ reader }
{
    Counted {
        reader: Waiting::by(place.rt, reader),
        progress: place.progress,
    }
}

impl<R: Source> Source for Counted<'_, R> {
    ghost use Rattle.app_process.specs.Steps.Readers.{PassesRead};

    ghost remaining = { λ counted. R.remaining counted.reader };

    ghost called = { λ old outcome new. PassesRead R.called old.reader outcome new.reader };

    fn call(&mut self, buffer: &mut [u8]) -> io::Result<usize> {
        match self.reader.call(buffer) {
            Ok(count) => {
                if let Some(progress) = self.progress {
                    tell(progress, count, buffer.is_empty());
                }
                Ok(count)
            }
            Err(error) => Err(error),
        }
    }
}

// Tells that so many bytes were read: none, where some were wanted, is the end.
fn tell(progress: &Progress<'_>, count: usize, is_nothing_wanted: bool) {
    if count > 0 {
        progress.add_read(count);
    } else if !is_nothing_wanted {
        progress.end_input();
    }
}
