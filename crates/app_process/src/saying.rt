//! What is said beside the answers.

ghost use Rattle.std.specs.Prelude.{List, None, Option, ℕ, ◌++◌, ◌<◌, ◌≢◌, codes, length, slice_index};
ghost use Rattle.std.specs.Option.{option_copied};
ghost use Rattle.std.specs.Io.KnownBytes.{Appends};
ghost use Rattle.json_lines.specs.Lines.{ended};
ghost use Rattle.app_process.specs.Saying.{said_line, said_lines};

/// Where the program says what is no answer, as why an input is refused: standard error, in the process.
pub trait Say {
    // What was said so far, where that is known.
    ghost said: { Self → Option (List ℕ) } = { λ _. None };

    /// Says a text as it is. Nothing comes of a failure.
    fn say(&mut self, text: &str)
        ensures { Appends (said self.old) (said self.new) text.now };

    /// Says a text, and ends the line.
    fn say_line(&mut self, text: &str)
        ensures { Appends (said self.old) (said self.new) (ended text.now) };
}

/// Standard error. No contract can say what it holds.
#[derive(Clone, Copy)]
pub(crate) struct StandardError<'a, P> {
    rt: &'a P,
}

impl<'a, P> StandardError<'a, P> {
    /// The standard error of a process.
    pub(crate) fn of(rt: &'a P) -> StandardError<'a, P> {
        StandardError { rt }
    }
}

impl<P: Eprint> Say for StandardError<'_, P> {
    fn say(&mut self, text: &str) {
        let _ = self.rt.eprint(text);
    }

    fn say_line(&mut self, text: &str) {
        let _ = self.rt.eprintln(text);
    }
}

/// Says the lines of a text, each after a label where there is one.
pub(crate) fn say_lines<E: Say>(errors: &mut E, label: Option<&str>, text: &str)
    ensures { Appends (E.said errors.old) (E.said errors.new) (said_lines (option_copied label.entry) text.now) }
{
    match text.split_once('\n') {
        Some((line, further)) => {
            say_labelled(errors, label, line);
            say_lines(errors, label, further);
        }
        None => say_last(errors, label, text),
    }
}

// Says what comes after the last line feed of a text, which is a line where it is not empty.
fn say_last<E: Say>(errors: &mut E, label: Option<&str>, text: &str)
    requires { (i : ℕ) → i < length text.now → slice_index text.now i ≢ 10 }
    ensures { Appends (E.said errors.old) (E.said errors.new) (said_lines (option_copied label.entry) text.now) }
{
    if !text.is_empty() {
        say_labelled(errors, label, text);
    }
}

// Says a line, after a label where there is one.
fn say_labelled<E: Say>(errors: &mut E, label: Option<&str>, line: &str)
    ensures { Appends (E.said errors.old) (E.said errors.new) (said_line (option_copied label.entry) line.now) }
{
    match label {
        None => errors.say_line(line),
        Some(label) => say_after(errors, label, line),
    }
}

// Says a line after a label.
#[tactic(auto, using(crate::proofs::SaidLaws::said_after))]
fn say_after<E: Say>(errors: &mut E, label: &str, line: &str)
    ensures { Appends (E.said errors.old) (E.said errors.new) (label.now ++ (codes ": " ++ ended line.now)) }
{
    errors.say(label);
    errors.say(": ");
    errors.say_line(line);
}
