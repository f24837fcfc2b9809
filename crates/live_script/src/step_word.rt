//! The words of the steps of scripts, one for each kind of step.

ghost use Rattle.json_histories.specs.Reads.{IsRead};
ghost use Rattle.live_script.specs.StepWords.{name_of};

use pattern_json::Word;

/// The word that a step of a script begins with.
#[derive(Clone, Copy)]
pub enum StepWord {
    /// A session begins an operation.
    Begin,
    /// A session ends its operation.
    End,
    /// A sealer starts.
    Start,
    /// A sealer looks, once or several times.
    Look,
    /// The history of a sealer is shown.
    Show,
    /// The history of a sealer is filed.
    File,
    /// A piece is taken.
    Take,
    /// A piece is checked.
    Work,
    /// A verdict is put to a case.
    Put,
    /// A pattern is put against a case.
    Refute,
    /// A user of the desk asks for the state of a case.
    Ask,
}

impl StepWord {
    /// The step word that a text is, or none where the text is no step word.
    pub fn named(word: &str) -> Option<StepWord>
        ensures { IsRead name_of word.now result }
    {
        match word {
            "begin" => Some(StepWord::Begin),
            "end" => Some(StepWord::End),
            "start" => Some(StepWord::Start),
            "look" => Some(StepWord::Look),
            "show" => Some(StepWord::Show),
            "file" => Some(StepWord::File),
            "take" => Some(StepWord::Take),
            "work" => Some(StepWord::Work),
            "put" => Some(StepWord::Put),
            "refute" => Some(StepWord::Refute),
            "ask" => Some(StepWord::Ask),
            _ => None,
        }
    }
}

impl Word for StepWord {
    ghost use Rattle.live_script.specs.StepWords.{name_of};

    ghost name = { name_of };

    fn named(text: &str) -> Option<StepWord> {
        StepWord::named(text)
    }
}
