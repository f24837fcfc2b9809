//! What the calls say of some inputs, and what their buffers have then.

use crate::logs::{causal_judge_log_events, causal_judge_log_explain, causal_judge_log_judge};
use crate::long::{causal_judge_long_explain, causal_judge_long_judge, causal_judge_long_refute};
use crate::{causal_judge_check, causal_judge_explain, causal_judge_judge, causal_judge_refute};
use std::alloc::{AllocError, Global};
use std::test::Fail;
use test_expectations::expect_text;

// A call of the library.
#[derive(Clone, Copy)]
enum Call {
    Judge,
    Check,
    Explain,
    Refute,
    LongJudge,
    LongExplain,
    LongRefute,
    LogJudge,
    LogExplain,
    LogEvents,
}

impl Call {
    fn make(self, alloc: Global, input: &[u8], answer: &mut [u8], needed: &mut usize) -> u8 {
        match self {
            Call::Judge => causal_judge_judge(alloc, input, answer, needed),
            Call::Check => causal_judge_check(alloc, input, answer, needed),
            Call::Explain => causal_judge_explain(alloc, input, answer, needed),
            Call::Refute => causal_judge_refute(alloc, input, answer, needed),
            Call::LongJudge => causal_judge_long_judge(alloc, input, answer, needed),
            Call::LongExplain => causal_judge_long_explain(alloc, input, answer, needed),
            Call::LongRefute => causal_judge_long_refute(alloc, input, answer, needed),
            Call::LogJudge => causal_judge_log_judge(alloc, input, answer, needed),
            Call::LogExplain => causal_judge_log_explain(alloc, input, answer, needed),
            Call::LogEvents => causal_judge_log_events(alloc, input, answer, needed),
        }
    }
}

// A call, its input, the number of bytes of its buffer, which are dots before, and what is wanted: the status, the number of bytes that the
// text needs, and the buffer.
#[derive(Clone, Copy)]
struct Case(Call, &'static str, usize, &'static str);

const HISTORY: &str = r#"["memory",[[["w",0,1]],[["r",0,1]]]]"#;

const PAIR: &str =
    r#"[["memory",[[["w",0,1]],[["r",0,1]]]],["cc",[[[1,0]],[[1,1]]],[[[0]],[[1]]]]]"#;

const CLAIM: &str = r#"[["memory",[[["r",0,7]]]],"ccv",["ThinAirRead",[0,0]]]"#;

// Its last line is not whole.
const LOG: &str = r#"["begin","a",["w","x",7]]
["end","a","ok"]
["begin","b",["r","x"]]
["end","b",7]
["begin","#;

const LATE_START: &str = r#"["begin","a",["w","x",7]]
["start","x",1]
"#;

const BAD_OPERATION: &str = r#"["memory",[[["x"]]]]"#;

const ANSWERS: [Case; 4] = [
    Case(Call::Judge, HISTORY, 24, "0 22 cc yes\ncm yes\nccv yes\n.."),
    Case(Call::Check, PAIR, 16, "0 15 cc unknown 1.0\n."),
    Case(
        Call::Explain,
        HISTORY,
        58,
        "0 57 [[\"cc\",\"yes\",null],[\"cm\",\"yes\",null],[\"ccv\",\"yes\",null]]\n.",
    ),
    Case(Call::Refute, CLAIM, 20, "0 19 ccv no ThinAirRead\n."),
];

const LONG_ANSWERS: [Case; 3] = [
    Case(
        Call::LongJudge,
        HISTORY,
        24,
        "0 22 cc yes\ncm yes\nccv yes\n..",
    ),
    Case(
        Call::LongExplain,
        HISTORY,
        58,
        "0 57 [[\"cc\",\"yes\",null],[\"cm\",\"yes\",null],[\"ccv\",\"yes\",null]]\n.",
    ),
    Case(Call::LongRefute, CLAIM, 20, "0 19 ccv no ThinAirRead\n."),
];

const LOG_ANSWERS: [Case; 3] = [
    Case(Call::LogJudge, LOG, 24, "0 22 cc yes\ncm yes\nccv yes\n.."),
    Case(
        Call::LogExplain,
        LOG,
        58,
        "0 57 [[\"cc\",\"yes\",null],[\"cm\",\"yes\",null],[\"ccv\",\"yes\",null]]\n.",
    ),
    Case(
        Call::LogEvents,
        LOG,
        39,
        "0 37 [\"memory\",[[[\"w\",0,1]],[[\"r\",0,1]]]]\n..",
    ),
];

const LOG_REFUSALS: [Case; 2] = [
    Case(
        Call::LogJudge,
        LATE_START,
        100,
        "1 81 refused 30 2\nline 2: a start after the first begin, or a second start of its key\n...................",
    ),
    Case(
        Call::LogEvents,
        LATE_START,
        80,
        "3 81 ................................................................................",
    ),
];

const REFUSALS: [Case; 4] = [
    Case(Call::Judge, BAD_OPERATION, 16, "1 14 refused 4 0.0\n.."),
    Case(Call::Check, HISTORY, 16, "1 10 refused 2\n......"),
    Case(Call::Explain, "", 16, "1 10 refused 1\n......"),
    Case(Call::Refute, PAIR, 16, "1 10 refused 2\n......"),
];

const SHORT: [Case; 2] = [
    Case(Call::Judge, HISTORY, 21, "3 22 ....................."),
    Case(Call::Judge, "", 0, "3 10 "),
];

#[test]
fn answers_are_first_in_the_buffer(rt: HostRuntime) -> Result<(), Fail> {
    expect_cases(rt.alloc(), &ANSWERS)
}

#[test]
fn answers_on_any_length_are_first_in_the_buffer(rt: HostRuntime) -> Result<(), Fail> {
    expect_cases(rt.alloc(), &LONG_ANSWERS)
}

#[test]
fn answers_to_logs_are_first_in_the_buffer(rt: HostRuntime) -> Result<(), Fail> {
    expect_cases(rt.alloc(), &LOG_ANSWERS)
}

#[test]
fn refused_lines_are_first_in_the_buffer(rt: HostRuntime) -> Result<(), Fail> {
    expect_cases(rt.alloc(), &LOG_REFUSALS)
}

#[test]
fn refusals_are_first_in_the_buffer(rt: HostRuntime) -> Result<(), Fail> {
    expect_cases(rt.alloc(), &REFUSALS)
}

#[test]
fn short_buffers_stay_as_they_were(rt: HostRuntime) -> Result<(), Fail> {
    expect_cases(rt.alloc(), &SHORT)
}

fn expect_cases(alloc: Global, cases: &[Case]) -> Result<(), Fail> {
    for Case(call, input, room, wanted) in cases {
        expect_text(shown(alloc, *call, input, *room), wanted)?;
    }
    Ok(())
}

// The status of a call, the number of bytes that its text needs, and its buffer of this many bytes.
fn shown(alloc: Global, call: Call, input: &str, room: usize) -> Result<String, AllocError> {
    let mut buffer = vec![in alloc; b'.'; room]?;
    let mut needed = 0;
    let status = call.make(alloc, input.as_bytes(), &mut buffer, &mut needed);
    let answer = String::from_utf8_lossy(alloc, &buffer)?;
    format!(in alloc; "{status} {needed} {answer}")
}
