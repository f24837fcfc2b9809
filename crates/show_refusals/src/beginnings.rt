//! Bytes that a file of another kind begins with.

use crate::json_fault::JsonFault;

// How to write a text with a byte order mark.
const NO_MARK: &str = ": write the text in UTF-8 without one";

const COMPRESSED: JsonFault = JsonFault {
    before: "compressed data",
    after: ": unpack it first",
};

// What bytes begin with, and what is wrong with it.
const BEGINNINGS: &[(&[u8], JsonFault)] = &[
    (
        b"\xef\xbb\xbf",
        JsonFault {
            before: "a byte order mark",
            after: NO_MARK,
        },
    ),
    (
        b"\xff\xfe",
        JsonFault {
            before: "a byte order mark of UTF-16",
            after: NO_MARK,
        },
    ),
    (
        b"\xfe\xff",
        JsonFault {
            before: "a byte order mark of UTF-16",
            after: NO_MARK,
        },
    ),
    (b"\x1f\x8b", COMPRESSED),
    (b"\x28\xb5\x2f\xfd", COMPRESSED),
    (b"PK\x03\x04", COMPRESSED),
];

/// What is wrong with bytes that begin as a file of another kind does: with a byte order mark, or as compressed data.
pub(crate) fn beginning_fault(bytes: &[u8]) -> Option<JsonFault> {
    for (beginning, fault) in BEGINNINGS {
        if bytes.starts_with(*beginning) {
            return Some(*fault);
        }
    }
    None
}
