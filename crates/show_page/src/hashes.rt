//! The hashes of the script and of the style, as the policy of the page has them.
//!
//! `tests/pages/page_parts.py --write` writes them anew, here and in the policy, and `tests/process/pages.py` computes them again.

/// The hash of `SCRIPT`, `ZOOMING` and `DRAWING`, joined in this order.
pub const SCRIPT_HASH: &str = r#"sha256-bGKjQAizgU4VDTx9pfxzhsNpv8bHNHVrUUs6/h4/tEk="#;

/// The hash of `STYLE`.
pub const STYLE_HASH: &str = r#"sha256-W+adrpk4AgFw85phCFghPqkK0vN5PCysVzyjCRaoJng="#;
