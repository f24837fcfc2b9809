//! What the help says beside the commands and their options.

/// The version of the program, as in the file VERSION, and the kit that proves it.
pub const VERSION: &str = "0.1.0 (rattle-kit-13b logic dac8208d650f15bf)";

/// What `--long` lets `judge` take.
pub const LONG: &str =
    "Judges a memory, and no other object, of any length; made for 10 to 1,000 sessions";

/// What `--long` lets `explain` take.
pub const LONG_REASON: &str = "Explains a memory, and no other object, of any length";

/// What `--long` lets `refute` take.
pub const LONG_PATTERN: &str = "Checks the pattern in a memory, and no other object, of any length";

/// What `--events` lets `judge` take.
pub const EVENTS: &str = "The input is a log, with one event in each line";

/// What `--events` lets `explain` take.
pub const EVENTS_REASON: &str =
    "The input is a log, and operations are shown by their lines and names";

/// What `--lines` lets `judge` do.
pub const LINES: &str = "Judges a history in each line, and answers each with one line";

/// What `--skip-blank` lets `judge` do.
pub const SKIP_BLANK: &str = "With --lines: answers a blank line by a blank line";

/// What `--html` lets `explain` write.
pub const HTML: &str =
    "Writes it as one self-contained page to open in a browser, with the reads that show a fault";

/// What `--why` lets a command say.
pub const WHY: &str =
    "Says on a second line what is wrong with a refused input, where, and what is wanted";

/// What `--every` lets `judge` do.
pub const EVERY: &str =
    "With --events: judges the log so far after every N events; with --expect ends at the first fault";

/// What `--summary` lets `judge` say.
pub const SUMMARY: &str =
    "Says on standard error how much the run asked: clients, calls, reads that were answered, and more";

/// What `--at-least-reads` lets `judge` demand.
pub const LEAST_READS: &str =
    "Ends with status 6 where fewer than N reads were answered: a run that asks nothing is a yes";

/// What `--color` says.
pub const COLOR: &str =
    "Whether yes, no and unknown are coloured: auto (on a terminal), always or never";

/// What `--progress` says.
pub const PROGRESS: &str =
    "Says on standard error how far the work is; on a terminal, work of over a second does so anyway";

/// What `-o` does.
pub const OUTPUT: &str = "Writes the answer to this file: the whole of it, or nothing";

/// What files a command takes.
pub const FILES: &str =
    "What to read; - or none is standard input. Of a file the form is found: a log or a history";

/// What `--names` lets `events` write.
pub const NAMES: &str =
    "Writes the clients, the keys and the values of the log as JSON, each in the order of its numbers";

/// What `--notes` lets `events` write.
pub const NOTES: &str = "Writes the notes of the log's calls, each with the number of its line";
