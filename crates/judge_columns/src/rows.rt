//! Rows of four numbers, a lane for each of four sessions: their lanes are compared and changed at once.

ghost use Rattle.std.specs.Prelude.{◌≡◌, ◌≢◌, ℕ, ◌<◌, [], length, slice_index_or, slice_set, IfSome, IsTrue, MatchOption};
ghost use Rattle.judge_columns.specs.Lanes.{in_lane, lane_of};
ghost use Rattle.judge_columns.specs.Visits.{IsGreater, IsLesser, IsLoweredTo, IsRaisedTo};

use crate::passes::greater;

/// A number for each of four sessions.
pub(crate) type Row = [u32; 4];

/// The greater number in each lane.
fn greater_row(a: Row, b: Row) -> Row
    ensures { (k : ℕ) → k < 4 → IsGreater (in_lane a k) (in_lane b k) (in_lane result k) }
{
    [
        greater(a[0], b[0]),
        greater(a[1], b[1]),
        greater(a[2], b[2]),
        greater(a[3], b[3]),
    ]
}

/// The lesser number in each lane.
fn lesser_row(a: Row, b: Row) -> Row
    ensures { (k : ℕ) → k < 4 → IsLesser (in_lane a k) (in_lane b k) (in_lane result k) }
{
    [
        lesser(a[0], b[0]),
        lesser(a[1], b[1]),
        lesser(a[2], b[2]),
        lesser(a[3], b[3]),
    ]
}

/// The lesser of two numbers.
fn lesser(a: u32, b: u32) -> u32
    ensures { IsLesser a b result }
{
    if b < a { b } else { a }
}

/// A row, with a number in each lane of a session.
pub(crate) fn with_own(row: Row, sessions: Row, session: u32, number: u32) -> Row
    ensures own { (k : ℕ) → k < 4 → session ≡ in_lane sessions k → in_lane result k ≡ number }
    ensures other { (k : ℕ) → k < 4 → session ≢ in_lane sessions k → in_lane result k ≡ in_lane row k }
{
    [
        either(session == sessions[0], number, row[0]),
        either(session == sessions[1], number, row[1]),
        either(session == sessions[2], number, row[2]),
        either(session == sessions[3], number, row[3]),
    ]
}

/// The first of two numbers, or the other one.
fn either(is_first: bool, first: u32, other: u32) -> u32
    ensures first { IsTrue is_first → result ≡ first }
    ensures other { ¬ IsTrue is_first → result ≡ other }
{
    if is_first { first } else { other }
}

/// The row of an operation, or the starts where there is none.
pub(crate) fn row_before(rows: &[Row], starts: Row, operation: Option<u32>) -> Row
    requires { IfSome operation (λ n. n < length rows.now) }
    ensures { (k : ℕ) → k < 4 → MatchOption operation (in_lane result k ≡ in_lane starts k) (λ n. in_lane result k ≡ lane_of rows.now k n) }
{
    match operation {
        Some(operation) => rows[operation as usize],
        None => starts,
    }
}

/// A row, raised in each lane to the row of an operation, if there is one.
pub(crate) fn raised_row(rows: &[Row], row: Row, operation: Option<u32>) -> Row
    requires { IfSome operation (λ n. n < length rows.now) }
    ensures { (k : ℕ) → k < 4 → IsRaisedTo (lane_of rows.now k) (in_lane row k) operation (in_lane result k) }
{
    match operation {
        Some(operation) => greater_row(row, rows[operation as usize]),
        None => row,
    }
}

/// Lowers the row of an operation, if there is one, in each lane to another row.
pub(crate) fn lower_row(rows: &mut Vec<Row>, operation: Option<u32>, row: Row)
    requires { IfSome operation (λ n. n < length rows.old.items) }
    ensures size { length rows.new.items ≡ length rows.old.items }
    ensures lowered { (k : ℕ) → k < 4 → IsLoweredTo (lane_of rows.old.items k) operation (in_lane row k) (lane_of rows.new.items k) }
{
    if let Some(operation) = operation {
        let lowered = lesser_row(rows[operation as usize], row);
        put_row(rows, operation, lowered);
    }
}

/// Puts a row in the place of an operation.
pub(crate) fn put_row(rows: &mut Vec<Row>, operation: u32, row: Row)
    requires { operation < length rows.old.items }
    ensures { rows.new.items ≡ slice_set rows.old.items operation row }
{
    rows[operation as usize] = row;
}

/// Puts a row in each place. O(n) for n places.
pub(crate) fn fill_rows(rows: &mut Vec<Row>, row: Row)
    ensures size { length rows.new.items ≡ length rows.old.items }
    ensures each { (n : ℕ) → n < length rows.old.items → slice_index_or rows.new.items n [] ≡ row }
{
    for i in 0..rows.len() {
        rows[i] = row;
    }
}
