//! Pictures of histories as SVG texts: sessions are lanes side by side, the operations of a pattern and what joins them are in
//! colour, and those that are wrong are in red.
//!
//! Nobody trusts a picture: the pattern shows that a criterion is not met. A picture has no scripts and no fonts of its own, and
//! all its lengths are whole numbers.
#![tactic(auto)]

mod captions;
mod drawing;
mod drawing_edges;
mod drawing_head;
mod drawing_lanes;
mod edges;
mod escaping;
mod faults;
mod gathering;
mod label;
mod lanes;
pub mod laws;
mod layout;
mod legend;
mod marks;
mod pictures;
mod ports;
mod reason;
mod rows;

pub use escaping::escaped;
pub use label::Labelled;
pub use pictures::{picture_of_history, picture_of_pattern};
pub use reason::Reason;
