//! The topics that `help` has beside the commands.

ghost use Rattle.std.specs.Prelude.{MatchOption, map};
ghost use Rattle.app_command_line.specs.Shown.{AsksForTopic, IsTopicText, IsTextOf, NamesTopic};

use std::convert::AsStr;

/// The text of the topic that some words ask for, if they ask for one.
pub fn topic_in<S: AsStr>(words: &[S]) -> Option<&'static str>
    ensures { MatchOption result (¬ AsksForTopic (map S.text words.now)) (λ text. IsTopicText (map S.text words.now) text.now) }
{
    match words {
        [_, word, topic] => topic_of(word.as_str(), topic.as_str()),
        _ => None,
    }
}

// The text of the topic that two words ask for.
fn topic_of(word: &str, topic: &str) -> Option<&'static str>
    ensures { MatchOption result (¬ NamesTopic word.now topic.now) (λ text. IsTextOf word.now topic.now text.now) }
{
    match word {
        "help" => match topic {
            "forms" => Some(FORMS),
            "refusals" => Some(REFUSALS),
            _ => None,
        },
        _ => None,
    }
}

/// The forms of logs and histories.
pub const FORMS: &str =
    r#"A log has an event a line. A KEY, a CLIENT and a VALUE are texts or whole numbers:

  ["start",KEY,VALUE]                   the value before the first call
  ["begin",CLIENT,["w",KEY,VALUE]]      a write, ["r",KEY] a read, ["d",KEY] a
                                        delete: before the call is made
  ["end",CLIENT,"ok"]                   a write or a delete was answered
  ["end",CLIENT,VALUE]                  a read was; null where it found nothing
  ["fail",CLIENT]   ["lost",CLIENT]     no effect for certain; no answer came

judge --every N is for a log in the order in which things happened. A no of its
first events is a no of the run, also where a later delete makes the whole log
ask less; with N a tenth of the run, all together take some five times what the
last takes. docs/events.md says all of it.

A run may also be a history, ["NAME",SESSIONS]. SESSIONS is a list with, for each
client, the list of its operations in order: each is a call with what it
returned.

  register  ["w",V]     ["r",V]             a register V, at first 0
  counter   ["inc"]     ["get",N]
  set       ["add",E]   ["rem",E]   ["has",E,true]   ["has",E,false]
  queue     ["push",V]  ["pop",V]   ["pop",null]     null: it was empty
  memory    ["w",X,V]   ["r",X,V]           a register for each key X
  counters, sets, queues: as above, with a key X after the word, ["get",X,N]

"?" stands for an unknown return: ["r",X,"?"], ["w",X,V,"?"]. After a call with
an unknown return, a session may hold only more such calls. X is below 2^32, V,
N and E are below 2^64, and there are at most 16 sessions of at most 256
operations. A memory in a FILE, or with --long, has no limit on sessions and
operations. A memory with other values at first: ["memory",SESSIONS,[[X,V],..]],
X rising and V not 0.
Write no value twice to a key: else a line is yes or unknown, and never no.

The first text of a FILE tells its form: start, begin, end, fail, lost or order
begins a log, memory a memory of any length, and any other text another history.
Standard input, as - or where there is no FILE, is a log with --events, and with
--long a memory of any length; as - its form is found, too.
judge --lines reads a history in each line.
"#;

/// What refusals, answers and statuses mean.
pub const REFUSALS: &str =
    r#"Answers of judge, for causal consistency (cc), causal memory (cm) and causal
convergence (ccv):
  yes          an order exists that explains what was returned
  no KIND      no such order exists: the history has a pattern of this kind
  unknown S.I  nothing is known; the order tried fails at operation S.I
  unknown      nothing is known

Status: 0 answered, whatever the verdict; 1 the input is refused; 2 wrong words;
3 reading or writing failed; 4 memory ran out. With --expect 0 means that each
criterion in the list is met, 5 that one is not met, and 6 that of one nothing
is known. With --at-least-reads 6 also means that fewer reads were answered.
Of several files the status is the worst: 2, then 4, 3, 1, 5, 6 and 0.

'refused N', or 'refused N S.I' with the operation, says what is wrong:
  1 no JSON   2 no list of a name and sessions   3 unknown NAME   4 no such
  operation   5 a known return after an unknown one   6 too many sessions
  7 too many operations   9 over 64 MiB   29 bad first values
With --long 6 and 7 never come, and 3 comes for any NAME but memory.
With --why or --long, and of a FILE, a second line says it in words.
A log is refused by 'refused N LINE', 30 for no event or one that may not be
there.
The other commands have more of them: docs/guide.md tells of all.

judge --lines takes a history in each line of the input, and writes a line for
each: its three lines with "; " between, or 'refused N'. The status is 1 where
a line was refused, else with --expect as above for the worst of all lines.
"#;
