//! What the words of a command line ask for, and what the program says of other words.
//!
//! [`command_of`] gives what the words ask for ([`app_orders::Asked`]), or the [`Usage`] that says why they ask for nothing, and
//! [`next_file`] gives the files that the words name. It uses app_orders for what can be asked for, clap for faults and help, and
//! cert_check, live_replica and judge_workers for what options name.
//! How words are read may change: the contract says which give which task, and on which page help is. No contract fixes the texts of
//! faults that `clap` finds, nor what it writes of usage and options.
#![tactic(auto)]

mod abouts;
mod arguments;
mod coloring;
mod command;
mod expected;
mod given;
mod help;
mod help_page;
mod manuals;
mod misuse;
mod misuse_text;
mod named_store;
mod numerals;
mod operands;
mod options;
mod program;
mod said;
mod settings;
mod shown;
mod sight;
mod topics;

pub use command::{Usage, asked_in, command_of, fault_with};
pub use misuse_text::{output_file, usage_fault};
pub use operands::next_file;
pub use sight::Sight;
