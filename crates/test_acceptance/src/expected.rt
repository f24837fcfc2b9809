//! The assertions of `expectations` refuse another value than the wanted one.

use std::alloc::AllocError;
use std::io::Eprint;
use std::process::{ExitCode, Termination};
use std::test::Fail;
use test_expectations::{expect_ok, expect_ok_at, expect_same, expect_same_at, expect_text};

/// Whether an assertion failed. What it says is printed.
fn is_refused(rt: &impl Eprint, asserted: Result<(), Fail>) -> bool {
    asserted.report(rt) == ExitCode::FAILURE
}

/// Fails where one of these is false.
fn all(refused: &[bool]) -> Result<(), Fail> {
    for is_refused in refused {
        if !is_refused {
            return Err(Fail::new("an assertion takes a value that is not wanted"));
        }
    }
    Ok(())
}

#[test]
fn other_values_than_the_wanted_ones_are_refused(rt: HostRuntime) -> Result<(), Fail> {
    let one: Result<u8, AllocError> = Ok(1);
    let none: Result<u8, AllocError> = Err(AllocError);
    let text = String::from_str(rt.alloc(), "one");
    all(&[
        is_refused(&rt, expect_same(1, 2)),
        is_refused(&rt, expect_same_at("row", 1, 2)),
        is_refused(&rt, expect_ok(one, 2)),
        is_refused(&rt, expect_ok(none, 1)),
        is_refused(&rt, expect_ok_at("row", one, 2)),
        is_refused(&rt, expect_ok_at("row", none, 1)),
        is_refused(&rt, expect_text(text, "two")),
    ])
}
