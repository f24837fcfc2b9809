//! Assertions that many tests make, each of which is proved here once. A test that makes one by a call is proved in less than a second.
//!
//! It gives [`expect_same`], [`expect_ok`] and [`expect_text`], and those that name a place of a table. It uses no other crate. The tests
//! of `test_acceptance` and `causal_judge_library` use it. A new assertion that two tests make belongs here.
#![tactic(auto)]

use std::fmt::Debug;
use std::test::Fail;

/// This value is the wanted one. A failure shows both.
pub fn expect_same<T: PartialEq + Debug + Drop>(found: T, wanted: T) -> Result<(), Fail> {
    if found == wanted {
        Ok(())
    } else {
        Err(Fail::new(format_args!("{found:?}, and not {wanted:?}")))
    }
}

/// This value is the wanted one, at this place of a table or a loop. A failure shows both, and the place.
pub fn expect_same_at<T: PartialEq + Debug + Drop>(
    at: impl Debug + Drop,
    found: T,
    wanted: T,
) -> Result<(), Fail> {
    if found == wanted {
        Ok(())
    } else {
        Err(Fail::new(format_args!("at {at:?}: {found:?}, and not {wanted:?}")))
    }
}

/// A call has given the wanted value.
pub fn expect_ok<T: PartialEq + Debug + Drop, E: Debug + Drop>(
    given: Result<T, E>,
    wanted: T,
) -> Result<(), Fail> {
    expect_same(given?, wanted)
}

/// A call has given the wanted value, at this place of a table or a loop.
pub fn expect_ok_at<T: PartialEq + Debug + Drop, E: Debug + Drop>(
    at: impl Debug + Drop,
    given: Result<T, E>,
    wanted: T,
) -> Result<(), Fail> {
    expect_same_at(at, given?, wanted)
}

/// A call has given the wanted text.
pub fn expect_text<E: Debug + Drop>(given: Result<String, E>, wanted: &str) -> Result<(), Fail> {
    let text = given?;
    if text.as_str() == wanted {
        Ok(())
    } else {
        Err(Fail::new(format_args!("{text:?}, and not {wanted:?}")))
    }
}
