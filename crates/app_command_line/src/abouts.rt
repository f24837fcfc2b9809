//! What the help on each page says first.

/// On the program.
pub const PROGRAM: &str =
    "Judges a recorded history of replicated objects by the criteria of causal consistency";

/// On `help`, in the words of `clap`.
pub const HELP: &str = "Print this message or the help of the given subcommand(s)";

/// On `judge`.
pub const JUDGE: &str = "Reads a history and judges it";

/// On `check`.
pub const CHECK: &str = "Reads a history and a certificate of it, and checks it";

/// On `explain`.
pub const EXPLAIN: &str = "Reads a history, and shows why it meets each criterion or does not";

/// On `refute`.
pub const REFUTE: &str = "Reads a history, the name of a criterion and a pattern, and checks it";

/// On `replay`.
pub const REPLAY: &str = "Reads a script of sessions, sealers and workers, and runs it";

/// On `drive`.
pub const DRIVE: &str = "Drives a store with the calls of a history, and judges what was recorded";

/// On `events`.
pub const EVENTS: &str = "Reads a log of events, and writes the history that it records";
