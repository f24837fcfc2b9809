//! Answers that go to a file.

ghost use Rattle.std.specs.Prelude.{◌≡◌, false, true};
ghost use Rattle.app_process.specs.Saying.{SaysSome};

use crate::place::Place;
use crate::saying::Say;
use std::rt::Files;
use std::sync::Wait;
use std::{fs, io};

/// Writes an answer to the file of this name, and returns whether it is there now; says what failed where it is not.
///
/// The answer is written beside the file first, under the file's name with `.part` after it, which then takes the place of the file. So
/// the file has the whole answer, or what it had. What is no plain file, as a pipe, is written to as it is.
#[tactic(auto, using(crate::proofs::SaidLaws::says_two))]
pub(crate) fn save<P: Files + AllocGlobal + Eprint + Wait, E: Say>(
    place: &Place<'_, P>,
    errors: &mut E,
    name: &str,
    answer: &[u8],
) -> bool
    ensures saved { result ≡ true → errors.new ≡ errors.old }
    ensures unsaved { result ≡ false → SaysSome (E.said errors.old) (E.said errors.new) }
{
    match written(place.rt, name, answer) {
        Ok(()) => true,
        Err(_) => {
            place.make_room();
            errors.say(name);
            errors.say_line(": the answer can't be written there");
            false
        }
    }
}

fn written<P: Files + AllocGlobal>(rt: &P, name: &str, answer: &[u8]) -> io::Result<()> {
    match fs::metadata(rt, name) {
        Ok(found) if !found.is_file() => fs::write(rt, name, answer),
        Ok(_) => {
            let whole = fs::canonicalize(rt, name)?;
            written_beside(rt, whole.to_str().unwrap_or(name), answer)
        }
        Err(_) => written_beside(rt, name, answer),
    }
}

// Writes the answer beside a file, and gives it the file's name.
fn written_beside<P: Files + AllocGlobal>(rt: &P, name: &str, answer: &[u8]) -> io::Result<()> {
    let part = format!(in rt.alloc(); "{name}.part")?;
    let outcome = fs::write(rt, part.as_str(), answer).and_then(|_| fs::rename(
        rt,
        part.as_str(),
        name,
    ));
    if outcome.is_err() {
        let _ = fs::remove_file(rt, part.as_str());
    }
    outcome
}
