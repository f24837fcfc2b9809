//! Files that are opened.

ghost use Rattle.app_process.specs.Saying.{SaysSome};

use crate::saying::Say;
use app_logs::Rest;
use std::fs::OpenFile;
use std::rt::Files;
use std::{fs, io};

/// A file that is open, or what is wrong.
pub(crate) fn opened<P: Files>(rt: &P, name: &str) -> Result<P::File, &'static str> {
    let file = fs::open(rt, name).map_err(|error| fault_of(&error))?;
    match file.metadata() {
        Ok(found) if found.is_dir() => Err("it is a folder"),
        _ => Ok(file),
    }
}

/// Whether the rest of a file is read where the judging of its log ends early: a read of a plain file never waits for more.
pub(crate) fn rest_of<F: OpenFile>(file: &F) -> Rest {
    match file.metadata() {
        Ok(found) if found.is_file() => Rest::Read,
        _ => Rest::Unread,
    }
}

// What is wrong with a file that can't be opened.
fn fault_of(error: &io::Error) -> &'static str {
    match error.kind() {
        io::ErrorKind::NotFound => "there is no such file",
        io::ErrorKind::PermissionDenied => "it may not be read",
        _ => "it can't be opened",
    }
}

/// Names a file and says what is wrong with it.
#[tactic(auto, using(crate::proofs::SaidLaws::says_three))]
pub(crate) fn say_of_file<E: Say>(errors: &mut E, name: &str, fault: &str)
    ensures { SaysSome (E.said errors.old) (E.said errors.new) }
{
    errors.say(name);
    errors.say(": ");
    errors.say_line(fault);
}
