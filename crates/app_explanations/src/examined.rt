//! A history whose findings are put into words. What is known of a memory is made once.

use json_histories::AnyHistory;
use order_memory::IndexedMemory;

/// A history whose findings are put into words.
#[derive(Clone, Copy)]
pub(crate) enum Examined<'a, 'b> {
    /// A history of a memory, with what is known of it.
    Memory(&'a IndexedMemory<'b>),
    /// A history of another object.
    Object(&'a AnyHistory),
}
