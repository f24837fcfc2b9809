//! What words ask for, by how an input looks.

ghost use Rattle.std.specs.Prelude.{MatchOption, map, string_bytes};
ghost use Rattle.app_command_line.specs.CommandLine.{IsCommandLine};
ghost use Rattle.app_process.specs.Process.{AskForNone};
ghost use Rattle.app_process.specs.Steps.Choices.{AreChoices, IsChoice};

use app_command_line::{Sight, asked_in};
use app_orders::Asked;

/// What words ask for, by how an input looks. It is found once for all files.
#[derive(Clone, Copy)]
pub(crate) struct Choices {
    unseen: Option<Asked>,
    log: Option<Asked>,
    memory: Option<Asked>,
    other: Option<Asked>,
}

impl Choices {
    /// What these words ask for.
    pub(crate) fn of(words: &[String]) -> Choices
        ensures { AreChoices (map string_bytes words.now) result }
    {
        Choices {
            unseen: asked_in(words, Sight::Unseen),
            log: asked_in(words, Sight::Log),
            memory: asked_in(words, Sight::Memory),
            other: asked_in(words, Sight::Other),
        }
    }

    /// What they ask for on an input that looks so.
    pub(crate) fn on(&self, words: &[String], sight: Sight) -> Option<Asked>
        requires { AreChoices (map string_bytes words.now) self.now }
        ensures { IsChoice (map string_bytes words.now) sight result }
    {
        match sight {
            Sight::Unseen => self.unseen,
            Sight::Log => self.log,
            Sight::Memory => self.memory,
            Sight::Other => self.other,
        }
    }

    /// What they ask for on an input of some form.
    pub(crate) fn any(&self, words: &[String]) -> Option<Asked>
        requires { AreChoices (map string_bytes words.now) self.now }
        ensures { MatchOption result (AskForNone (map string_bytes words.now))
            (λ asked. (sight : Sight) × IsCommandLine sight asked (map string_bytes words.now)) }
    {
        match (self.unseen, self.other, self.memory) {
            (Some(asked), _, _) => Some(asked),
            (None, Some(asked), _) => Some(asked),
            (None, None, Some(asked)) => Some(asked),
            (None, None, None) => self.log,
        }
    }
}
