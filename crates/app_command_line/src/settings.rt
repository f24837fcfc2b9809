//! What a word after a command says, and to which commands.

ghost use Rattle.std.specs.Prelude.{◌≡◌, ◌≢◌, MatchOption};
ghost use Rattle.app_command_line.specs.Options.{SaysAlone, SaysTogether, command_word, takes};
ghost use Rattle.app_command_line.specs.Steps.BareWords.{IsNoBareWord};

use crate::coloring::coloring_in;
use crate::expected::expected_in;
use crate::numerals::{every_in, listed_in, reads_in, seals_in, session_in, workers_in};
use app_orders::{Coloring, Expected, Store};
use judge_workers::Workers;

/// The name of a command.
#[derive(Clone, Copy, Debug, PartialEq, Eq)]
pub enum CommandName {
    /// `judge`.
    Judge,
    /// `check`.
    Check,
    /// `explain`.
    Explain,
    /// `refute`.
    Refute,
    /// `replay`.
    Replay,
    /// `drive`.
    Drive,
    /// `events`.
    Events,
}

/// One thing that the words after a command say.
#[derive(Clone, Copy, Debug, PartialEq, Eq)]
pub enum Setting {
    /// The store.
    Store(Store),
    /// Updates are taken in at once.
    Eager,
    /// So many seals are taken while clients run.
    Seals(u8),
    /// So many workers check certificates.
    Workers(Workers),
    /// The client of this session never ends its last call.
    Stop(usize),
    /// These criteria are expected to be met.
    Expect(Expected),
    /// Each line of the input holds a history.
    Lines,
    /// Blank lines are skipped.
    SkipBlank,
    /// A history may have any length.
    Long,
    /// The input is a log of events.
    Events,
    /// The log is judged after each so many events.
    Every(u32),
    /// The names of a log are written.
    Names,
    /// The notes of a log's calls are written.
    Notes,
    /// At most so many reads that show a fault are listed.
    All(u32),
    /// A reason is given as JSON.
    Json,
    /// Certificates come with it.
    Certificates,
    /// A reason is given as a picture.
    Svg,
    /// A reason is given as a page.
    Html,
    /// What is wrong with a refused input is said.
    Why,
    /// The answer goes to a file, which the next word names.
    Output,
    /// Standard error gets how much the run asked.
    Summary,
    /// At least so many reads are to be answered.
    AtLeastReads(u32),
    /// Whether the lines of an answer are coloured.
    Color(Coloring),
    /// Standard error says how far the work is.
    Progress,
}

/// The command of this name.
pub fn command_named(word: &str) -> Option<CommandName>
    ensures { MatchOption result ((command : CommandName) → word.now ≢ command_word command)
        (λ command. word.now ≡ command_word command) }
{
    match word {
        "judge" => Some(CommandName::Judge),
        "check" => Some(CommandName::Check),
        "explain" => Some(CommandName::Explain),
        "refute" => Some(CommandName::Refute),
        "replay" => Some(CommandName::Replay),
        "drive" => Some(CommandName::Drive),
        "events" => Some(CommandName::Events),
        _ => None,
    }
}

impl Setting {
    fn is_of_judge(&self) -> bool
        ensures { result ≡ takes CommandName.Judge self.now }
    {
        match self {
            Setting::Workers(_)
            | Setting::Expect(_)
            | Setting::Lines
            | Setting::SkipBlank
            | Setting::Long
            | Setting::Events
            | Setting::Every(_)
            | Setting::Why
            | Setting::Summary
            | Setting::AtLeastReads(_)
            | Setting::Color(_)
            | Setting::Progress => true,
            _ => false,
        }
    }

    fn is_of_check(&self) -> bool
        ensures { result ≡ takes CommandName.Check self.now }
    {
        match self {
            Setting::Workers(_) | Setting::Why | Setting::Progress => true,
            _ => false,
        }
    }

    fn is_of_explain(&self) -> bool
        ensures { result ≡ takes CommandName.Explain self.now }
    {
        match self {
            Setting::Json
            | Setting::Certificates
            | Setting::Svg
            | Setting::Html
            | Setting::Long
            | Setting::Events
            | Setting::All(_)
            | Setting::Why
            | Setting::Output
            | Setting::Color(_)
            | Setting::Progress => true,
            _ => false,
        }
    }

    fn is_of_refute(&self) -> bool
        ensures { result ≡ takes CommandName.Refute self.now }
    {
        match self {
            Setting::Long | Setting::Why | Setting::Progress => true,
            _ => false,
        }
    }

    fn is_of_replay(&self) -> bool
        ensures { result ≡ takes CommandName.Replay self.now }
    {
        match self {
            Setting::Why | Setting::Progress => true,
            _ => false,
        }
    }

    fn is_of_events(&self) -> bool
        ensures { result ≡ takes CommandName.Events self.now }
    {
        match self {
            Setting::Names | Setting::Notes | Setting::Progress => true,
            _ => false,
        }
    }

    fn is_of_drive(&self) -> bool
        ensures { result ≡ takes CommandName.Drive self.now }
    {
        match self {
            Setting::Store(_)
            | Setting::Eager
            | Setting::Seals(_)
            | Setting::Workers(_)
            | Setting::Stop(_)
            | Setting::Why
            | Setting::Progress => true,
            _ => false,
        }
    }
}

impl CommandName {
    /// Whether the command takes this.
    pub fn takes(self, setting: &Setting) -> bool
        ensures { result ≡ takes self setting.now }
    {
        match self {
            CommandName::Judge => setting.is_of_judge(),
            CommandName::Check => setting.is_of_check(),
            CommandName::Explain => setting.is_of_explain(),
            CommandName::Refute => setting.is_of_refute(),
            CommandName::Replay => setting.is_of_replay(),
            CommandName::Drive => setting.is_of_drive(),
            CommandName::Events => setting.is_of_events(),
        }
    }
}

/// What one word says.
pub fn setting_alone(word: &str) -> Option<Setting>
    ensures { MatchOption result ((setting : Setting) → ¬ SaysAlone setting word.now) (λ setting. SaysAlone setting word.now) }
{
    match word {
        "causal" => Some(Setting::Store(Store::Causal)),
        "lamport" => Some(Setting::Store(Store::Lamport)),
        "--eager" => Some(Setting::Eager),
        "--lines" => Some(Setting::Lines),
        "--skip-blank" => Some(Setting::SkipBlank),
        "--long" => Some(Setting::Long),
        "--events" => Some(Setting::Events),
        "--names" => Some(Setting::Names),
        "--notes" => Some(Setting::Notes),
        "--json" => Some(Setting::Json),
        "--certificates" => Some(Setting::Certificates),
        "--svg" => Some(Setting::Svg),
        "--html" => Some(Setting::Html),
        "--why" => Some(Setting::Why),
        "--summary" => Some(Setting::Summary),
        "--progress" => Some(Setting::Progress),
        _ => value_alone(word),
    }
}

// What a word with a value says: the same as the name of the option and the value, without the equals sign between.
fn value_alone(word: &str) -> Option<Setting>
    requires { IsNoBareWord word.now }
    ensures { MatchOption result ((setting : Setting) → ¬ SaysAlone setting word.now) (λ setting. SaysAlone setting word.now) }
{
    match word.split_once('=') {
        Some((option, value)) => setting_together(option, value),
        None => None,
    }
}

/// What a word and the value after it say.
pub fn setting_together(word: &str, value: &str) -> Option<Setting>
    ensures { MatchOption result ((setting : Setting) → ¬ SaysTogether setting word.now value.now)
        (λ setting. SaysTogether setting word.now value.now) }
{
    match word {
        "--seals" => Some(Setting::Seals(seals_in(value)?)),
        "--workers" => Some(Setting::Workers(workers_in(value)?)),
        "--expect" => Some(Setting::Expect(expected_in(value)?)),
        "--all" => Some(Setting::All(listed_in(value)?)),
        "--every" => Some(Setting::Every(every_in(value)?)),
        "--stop" => Some(Setting::Stop(session_in(value)?)),
        "--at-least-reads" => Some(Setting::AtLeastReads(reads_in(value)?)),
        "--color" => Some(Setting::Color(coloring_in(value)?)),
        "-o" => Some(Setting::Output),
        _ => None,
    }
}
