//! Lines of a stream, and who answers them: a [`LineHandler`] answers a line by a line, and a [`LineReader`] reads a stream line by line.
//! Answering a whole stream by several workers is the work of json_line_workers, which uses this.
#![tactic(auto)]

mod answering;
mod blank;
mod dropping;
mod fault;
mod feeding;
mod found;
mod handler;
mod line_reader;
mod outcome;
mod part;
mod read_call;
mod sink;
mod source;
mod writing;

pub use answering::answer_alone;
pub use blank::is_blank;
pub use dropping::drop_front;
pub use fault::Fault;
pub use found::Found;
pub use handler::LineHandler;
pub use line_reader::LineReader;
pub use outcome::Outcome;
pub use part::Part;
pub use read_call::{MAX_READ_CALLS, read_once};
pub use sink::Sink;
pub use source::Source;
pub use writing::{MAX_WRITE_CALLS, write_whole};
