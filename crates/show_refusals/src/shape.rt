//! Where an input does not have the shape that is wanted.

use crate::part::{Part, length_of, part_at, whole};
use crate::placed::wanted_at;
use crate::refusal::InputForm;
use crate::sessions::{SessionFault, session_with};
use std::alloc::{AllocError, Global};

// What a part is to be.
#[derive(Clone, Copy)]
enum Kind {
    // A value that begins with this character: a text or a list.
    Begins(char),
    // A list of so many elements, from the least to the most.
    List(usize, usize),
    // No part is of this kind.
    Never,
}

// The path to a part, what it is to be, and what is wanted if it is not that.
type Row = (&'static [usize], Kind, &'static str);

const OBJECT: &str = "the name of an object";

const START: &str = "a table of initial values, [[KEY,VALUE],..]";

const HISTORY_ROWS: &[Row] = &[
    (
        &[],
        Kind::List(2, 3),
        "[OBJECT,SESSIONS] or [OBJECT,SESSIONS,START]",
    ),
    (&[0], Kind::Begins('"'), OBJECT),
    (&[1], Kind::Begins('['), "a list of sessions"),
    (&[2], Kind::Begins('['), START),
];

const CERTIFIED_ROWS: &[Row] = &[(&[], Kind::List(2, 2), "[HISTORY,CERTIFICATE]")];

const CLAIM_ROWS: &[Row] = &[(&[], Kind::List(3, 3), "[HISTORY,CRITERION,PATTERN]")];

// A script of which no other part is wrong has a wrong number of sessions, so the row of that number is the last.
const SCRIPT_ROWS: &[Row] = &[
    (
        &[],
        Kind::List(3, 4),
        "[OBJECT,SESSIONS,STEPS] or [OBJECT,SESSIONS,STEPS,START]",
    ),
    (&[0], Kind::Begins('"'), OBJECT),
    (&[2], Kind::Begins('['), "a list of steps"),
    (&[3], Kind::Begins('['), START),
    (&[1], Kind::Never, "the number of sessions"),
];

// The rows of an input, without those of a history in it.
fn rows_of(form: InputForm) -> &'static [Row] {
    match form {
        InputForm::History | InputForm::LongHistory => &[],
        InputForm::Certified => CERTIFIED_ROWS,
        InputForm::Claim | InputForm::LongClaim => CLAIM_ROWS,
        InputForm::Script => SCRIPT_ROWS,
    }
}

// The path to the history in an input.
fn path_of(form: InputForm) -> &'static [usize] {
    match form {
        InputForm::Certified | InputForm::Claim | InputForm::LongClaim => &[0],
        InputForm::History | InputForm::LongHistory | InputForm::Script => &[],
    }
}

/// Where the shape of an input is wrong, and what is wanted there. Fails for want of memory alone. O(n) for a text of n bytes.
pub(crate) fn shape_words(
    alloc: Global,
    text: &str,
    form: InputForm,
) -> Result<String, AllocError> {
    match whole(alloc, text) {
        Ok(Some(all)) => shape_in(alloc, all, form),
        Ok(None) => Ok(String::new(alloc)),
        Err(error) => Err(error),
    }
}

fn shape_in(alloc: Global, all: Part<'_>, form: InputForm) -> Result<String, AllocError> {
    match wrong_part(alloc, all, rows_of(form)) {
        Ok(Some((part, wanted))) => wanted_at(alloc, part, wanted),
        Ok(None) => history_shape(alloc, all, path_of(form)),
        Err(error) => Err(error),
    }
}

// Where the history at the end of a path has a wrong shape.
fn history_shape(alloc: Global, all: Part<'_>, path: &[usize]) -> Result<String, AllocError> {
    match part_at(alloc, all, path) {
        Ok(Some(history)) => shape_of_history(alloc, history),
        Ok(None) => Ok(String::new(alloc)),
        Err(error) => Err(error),
    }
}

fn shape_of_history(alloc: Global, history: Part<'_>) -> Result<String, AllocError> {
    match wrong_part(alloc, history, HISTORY_ROWS) {
        Ok(Some((part, wanted))) => wanted_at(alloc, part, wanted),
        Ok(None) => sessions_shape(alloc, history),
        Err(error) => Err(error),
    }
}

// Which session is no list.
fn sessions_shape(alloc: Global, history: Part<'_>) -> Result<String, AllocError> {
    match part_at(alloc, history, &[1]) {
        Ok(Some(sessions)) => session_shape(alloc, sessions),
        Ok(None) => Ok(String::new(alloc)),
        Err(error) => Err(error),
    }
}

fn session_shape(alloc: Global, sessions: Part<'_>) -> Result<String, AllocError> {
    match session_with(alloc, sessions, SessionFault::NoList) {
        Ok(Some((number, session))) => {
            let byte = session.byte;
            format!(in alloc; ": wanted at byte {byte} is session {number}, a list of operations")
        }
        Ok(None) => Ok(String::new(alloc)),
        Err(error) => Err(error),
    }
}

// The first part that is there and is not what it is to be, and what is wanted there.
fn wrong_part<'a>(
    alloc: Global,
    all: Part<'a>,
    rows: &[Row],
) -> Result<Option<(Part<'a>, &'static str)>, AllocError> {
    for (path, kind, wanted) in rows {
        if let Some(part) = wrong_at(alloc, all, *path, *kind)? {
            return Ok(Some((part, *wanted)));
        }
    }
    Ok(None)
}

// The part at the end of a path, if it is there and is not what it is to be.
fn wrong_at<'a>(
    alloc: Global,
    all: Part<'a>,
    path: &[usize],
    kind: Kind,
) -> Result<Option<Part<'a>>, AllocError> {
    match part_at(alloc, all, path)? {
        Some(part) if !is_of(alloc, part, kind)? => Ok(Some(part)),
        _ => Ok(None),
    }
}

fn is_of(alloc: Global, part: Part<'_>, kind: Kind) -> Result<bool, AllocError> {
    match kind {
        Kind::Begins(character) => Ok(part.text.starts_with(character)),
        Kind::List(least, most) => has_length(alloc, part, least, most),
        Kind::Never => Ok(false),
    }
}

// Whether a value is a list of so many elements, from the least to the most.
fn has_length(
    alloc: Global,
    list: Part<'_>,
    least: usize,
    most: usize,
) -> Result<bool, AllocError> {
    match length_of(alloc, list) {
        Ok(Some(length)) => Ok(least <= length && length <= most),
        Ok(None) => Ok(false),
        Err(error) => Err(error),
    }
}
