//! Scripts of runs of the world: reading them from JSON, running them, and writing the lines of the replies.
//!
//! [`replay`] reads a script from its text, runs it and writes the lines of its replies; [`read_script`] gives an [`AnyScript`] or a
//! [`ScriptError`], and [`reply_line`] makes a line. Steps are read token by token, with no value of a certificate or a pattern.
//! It uses live_simulation, json_histories, pattern_json, json_tokens, json_bounded, json and serde_json. How it reads and
//! writes may change: the contracts fix the form of a script, which texts are refused, and the lines.
#![tactic(auto)]

mod any_script;
mod arguments;
mod counts;
mod filing;
mod lines;
mod reader;
mod reading_script;
mod reading_steps;
mod replaying;
mod script;
mod script_error;
mod script_parts;
mod script_place;
mod script_steps;
mod scripted;
mod step_argument;
mod step_forms;
mod step_parts;
mod step_word;
mod steps_taken;
mod writing_out;
mod written_step;

pub use any_script::AnyScript;
pub use lines::reply_line;
pub use reader::read_script;
pub use replaying::replay;
pub use script::{MAX_STEPS, Script};
pub use script_error::ScriptError;
pub use step_word::StepWord;
pub use written_step::{MAX_LOOKS, WrittenStep};
