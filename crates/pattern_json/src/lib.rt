//! What shows that a history meets a criterion or does not, as JSON: certificates and bad patterns, written and read.
//!
//! [`certificate_value`], [`pattern_value`] and [`op_value`] make a value, and [`Written`] with [`list_value`], [`worded_one`] and
//! [`worded_two`] those of other forms. [`next_certificate`], [`certificate_from`] and [`next_pattern`] read from the tokens of a text,
//! with no value between, and [`next_word`] the name of whatever is a [`Word`]. Of a certificate of more sessions than a history has,
//! the lists of the first 17 are kept. [`read_pair`] reads a list of a history and a certificate, and gives a [`FoundCertificate`].
//! [`read_claim`] reads a list of a history, the name of a criterion and a pattern, and [`read_violation`] what comes after the history
//! in one.
//!
//! It uses json_histories, cert_check, pattern_check, json_tokens, json and serde_json. How a value is built and a text is read may change:
//! callers rest on the contracts, which say by the form of a certificate and of a pattern what is read and written.
#![tactic(auto)]

mod certificate;
mod certified_history;
mod claim;
mod claim_history;
mod claim_parts;
mod derivation;
mod explained;
mod formed;
mod found;
mod items;
mod link;
mod list_number;
mod lists;
mod numbers;
mod only;
mod opening;
mod operation;
mod pair;
mod parts;
mod path;
mod pattern;
mod session;
mod violation;
mod whole_number;
mod word;
mod writing_certificates;
mod writing_patterns;
mod written;

pub use certificate::{certificate_from, next_certificate};
pub use certified_history::read_pair;
pub use claim::{Claim, read_claim, read_violation};
pub use found::FoundCertificate;
pub use pattern::next_pattern;
pub use violation::Violation;
pub use word::{Word, next_word};
pub use writing_certificates::certificate_value;
pub use writing_patterns::{op_value, pattern_value};
pub use written::{Written, list_value, worded_one, worded_two};
