//! One checker checks pieces of two sessions, one after the other.

use crate::case_files::{certificate_of, file_with};
use cert_check::{CaseFile, Criterion, Outcome, PieceChecker};
use model_history::OpId;
use model_object_trait::SeqObject;
use model_objects::Memory;
use std::alloc::{AllocError, Global};
use std::test::Fail;
use test_expectations::expect_ok;

/// How many writes at another key the first session has, and the third. Together they are more than the 256 calls over which a checker
/// looks back for the write that it reads, so it replays these schedules.
const WRITES: usize = 200;

/// The last operation of the first session, and the last of the second.
const LAST: [OpId; 2] = [
    OpId {
        session: 0,
        index: WRITES as u64 + 1,
    },
    OpId {
        session: 1,
        index: 1,
    },
];

/// A history whose first session writes 1 at a key, and reads it after writes at another key. The second session reads 0 there, and then 1.
/// The third writes at the other key alone.
fn history_of(alloc: Global) -> Result<String, AllocError> {
    let write = r#"["w",0,2],"#;
    joined(
        alloc,
        &[
            (r#"["memory",[[["w",5,1],"#, 1),
            (write, WRITES),
            (r#"["r",5,1]],[["r",5,0],["r",5,1]],["#, 1),
            (write, WRITES - 1),
            (r#"["w",0,2]]]]"#, 1),
        ],
    )
}

/// A certificate that has a schedule for each of these two operations. Both have the read of 0 after the write of 1. That of the second
/// session begins with all of that of the first. Its vectors count the operations of the first session, `WRITES + 2`, and the writes of the
/// third.
fn schedules_of(alloc: Global) -> Result<String, AllocError> {
    joined(
        alloc,
        &[
            (r#"["cm",[["#, 1),
            ("[0,0,0],", WRITES + 1),
            ("[202,1,200]],[[0,0,0],[202,2,200]],[", 1),
            ("[0,0,0],", WRITES - 1),
            ("[0,0,0]]],[[", 1),
            ("[],", WRITES + 1),
            ("[0,", 1),
            ("0,2,", WRITES),
            ("1,0]],[[],[0,", 1),
            ("0,2,", WRITES),
            ("1,0,1]],[", 1),
            ("[],", WRITES - 1),
            ("[]]]]", 1),
        ],
    )
}

/// Pieces one after the other, each so many times.
fn joined(alloc: Global, pieces: &[(&str, usize)]) -> Result<String, AllocError> {
    let mut text = String::new(alloc);
    for (piece, times) in pieces {
        push_times(&mut text, piece, *times)?;
    }
    Ok(text)
}

/// Puts a piece so many times into a text.
fn push_times(text: &mut String, piece: &str, times: usize) -> Result<(), AllocError> {
    for _time in 0..times {
        text.push_str(piece)?;
    }
    Ok(())
}

/// The case file of the history and the certificate.
fn case_file_of(alloc: Global) -> Result<Option<CaseFile<Memory>>, AllocError> {
    let certificate = schedules_of(alloc)?;
    let history = history_of(alloc)?;
    let certificate = certificate_of(alloc, certificate.as_str());
    Ok(file_with(alloc, Criterion::Cm, history.as_str(), certificate))
}

/// What one checker finds of the pieces of both operations, one after the other. None where the file has no such pieces.
fn outcomes_of<O: SeqObject>(
    alloc: Global,
    file: &CaseFile<O>,
) -> Result<Option<[Outcome; 2]>, AllocError> {
    let history = file.history();
    if file.certificate().is_none() || !history.contains(LAST[0]) || !history.contains(LAST[1]) {
        return Ok(None);
    }
    let mut checker = PieceChecker::new(alloc, file)?;
    let first = checker.check(alloc, LAST[0]);
    let second = checker.check(alloc, LAST[1]);
    drop(checker);
    Ok(Some([first?, second?]))
}

/// What a checker finds of the pieces.
fn outcomes(alloc: Global) -> Result<Option<[Outcome; 2]>, AllocError> {
    match case_file_of(alloc)? {
        Some(file) => {
            let found = outcomes_of(alloc, &file);
            drop(file);
            found
        }
        None => Ok(None),
    }
}

#[test]
fn replay_goes_on_from_a_piece_of_its_own_session_alone(rt: HostRuntime) -> Result<(), Fail> {
    let wanted = Some([Outcome::Explained, Outcome::Unexplained]);
    expect_ok(outcomes(rt.alloc()), wanted)
}
