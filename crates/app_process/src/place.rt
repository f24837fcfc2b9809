//! How what is said of an input is said.

ghost use Rattle.std.specs.Prelude.{◌≡◌, None};
ghost use Rattle.std.specs.Option.{option_copied};
ghost use Rattle.std.specs.Io.KnownBytes.{Appends};
ghost use Rattle.app_process.specs.Saying.{said_lines};

use crate::progress::Progress;
use crate::saying::{Say, say_lines};
use std::sync::Wait;

/// How what is said of an input is said: each line after the name of the file where there are several, and in the place of how far the
/// work is.
#[derive(Clone, Copy)]
pub(crate) struct Place<'a, P> {
    /// The process.
    pub rt: &'a P,
    /// The name of the file, where there are several.
    pub label: Option<&'a str>,
    /// Whether somebody reads standard error at a terminal.
    pub is_terminal: bool,
    /// How far the work is, where that is shown there too.
    pub progress: Option<&'a Progress<'a>>,
}

impl<'a, P> Place<'a, P> {
    /// The place of what is of no file.
    pub(crate) fn plain(rt: &'a P) -> Place<'a, P>
        ensures { result.label ≡ None }
    {
        Place {
            rt,
            label: None,
            is_terminal: false,
            progress: None,
        }
    }

    /// The same place, where it is shown how far the work is.
    pub(crate) fn with<'b>(&self, progress: &'b Progress<'b>) -> Place<'b, P>
    where
        'a: 'b,
        ensures label { result.label ≡ self.now.label }
        ensures terminal { result.is_terminal ≡ self.now.is_terminal }
    {
        Place {
            rt: self.rt,
            label: self.label,
            is_terminal: self.is_terminal,
            progress: Some(progress),
        }
    }
}

impl<P: Eprint + Wait> Place<'_, P> {
    /// Says lines. Nothing comes of a failure.
    pub(crate) fn say<E: Say>(&self, errors: &mut E, lines: &str)
        ensures { Appends (E.said errors.old) (E.said errors.new) (said_lines (option_copied self.now.label) lines.now) }
    {
        self.make_room();
        say_lines(errors, self.label, lines);
        if let Some(progress) = self.progress {
            progress.let_go(self.rt);
        }
    }

    /// Makes room on standard error for something else than how far the work is.
    pub(crate) fn make_room(&self) {
        if let Some(progress) = self.progress {
            progress.hold(self.rt);
        }
    }
}
