//! Names in a list.

use std::alloc::{AllocError, Global};
use std::fmt::Write;

/// Names with commas between them and `and` before the last, or before how many more there are.
///
/// Fails for want of memory alone. O(n) for names of n letters.
pub fn listed(alloc: Global, names: &[String], more: usize) -> Result<String, AllocError> {
    let mut text = String::new(alloc);
    push_listed(&mut text, names, more)?;
    if more > 0 {
        write!(&mut text, " and {more} more")?;
    }
    Ok(text)
}

// Puts names after the text, each with a comma or `and` before it where one belongs there.
fn push_listed(text: &mut String, names: &[String], more: usize) -> Result<(), AllocError> {
    for (place, name) in names.iter().enumerate() {
        text.push_str(before_name(place, names.len(), more))?;
        text.push_str(name)?;
    }
    Ok(())
}

// The text before the name at a place among this many names.
fn before_name(place: usize, count: usize, more: usize) -> &'static str {
    if place == 0 {
        ""
    } else if more == 0 && place.saturating_add(1) == count {
        " and "
    } else {
        ", "
    }
}
