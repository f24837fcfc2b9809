//! What is known of a case file before any verdict.

ghost use Rattle.std.specs.Prelude.{◌≡◌, ◌+◌, length};
ghost use Rattle.live_case_desk.specs.Answers.{IsTrueAnswer, operations_of};

use cert_check::CaseFile;
use live_case_board::Answer;
use model_history::History;
use model_object_trait::SeqObject;
use pattern_check::Refutable;

/// How many operations a history has: at most 4,096.
fn operations_in<O: SeqObject>(h: &History<O>) -> u32
    ensures { result ≡ operations_of h.now }
{
    let mut operations = 0;
    for session in 0..h.sessions() {
        operations += h.len(session) as u32;
    }
    operations
}

/// What is known of a file of which no row has a verdict.
pub fn unfiled_answer<O: Refutable>(file: &CaseFile<O>) -> Answer
    ensures { IsTrueAnswer O.answer O.passes file.now result }
{
    if file.certificate().is_none() {
        return Answer::Unknown(None);
    }
    match operations_in(file.history()) {
        0 => Answer::Yes,
        open => Answer::Open(open),
    }
}
