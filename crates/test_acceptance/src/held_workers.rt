//! Workers that check pieces side by side.

use crate::case_files::{READ_AFTER_ITS_WRITE, file_of};
use cert_check::DeskError;
use judge_workers::Gate;
use live_case_answers::answer_of_file;
use live_case_desk::Answer;
use model_history::OpId;
use std::sync::Wait;
use std::sync::atomic::{AtomicBool, Ordering};
use std::test::Fail;
use std::thread;
use std::thread::Threads;
use test_expectations::expect_ok;

/// How many turns a thread waits at most before it goes on alone.
const TURNS: u64 = 1_000_000;

/// Holds the piece of the first session at its entry until that of the second has left, for so many turns at most.
#[derive(Drop)]
struct Hold {
    opened: AtomicBool,
    in_time: AtomicBool,
}

impl Gate for Hold {
    fn enter(&self, op: OpId) {
        if op.session == 0 {
            self.in_time
                .store(is_set_in_time(&self.opened), Ordering::SeqCst);
        }
    }

    fn leave(&self, op: OpId) {
        if op.session == 1 {
            self.opened.store(true, Ordering::SeqCst);
        }
    }
}

/// Waits for a flag. Returns whether it was set within `TURNS` turns.
fn is_set_in_time(flag: &AtomicBool) -> bool {
    for _turn in 0..TURNS {
        if flag.load(Ordering::SeqCst) {
            return true;
        }
        thread::yield_now();
    }
    false
}

/// What two workers say of a case file, and whether the first piece was held until the second had left.
fn said_by_two<P: Threads + Wait + Sync + AllocGlobal>(
    rt: &P,
) -> Result<(Answer, bool), DeskError> {
    let Some(file) = file_of(rt.alloc(), READ_AFTER_ITS_WRITE) else {
        return Err(DeskError::NoSuch);
    };
    let hold = Hold {
        opened: AtomicBool::new(false),
        in_time: AtomicBool::new(false),
    };
    let answer = answer_of_file(rt, rt.alloc(), file, 2, &hold)?;
    Ok((answer, hold.in_time.load(Ordering::SeqCst)))
}

#[test]
fn a_worker_goes_on_while_another_is_held(rt: HostRuntime) -> Result<(), Fail> {
    expect_ok(said_by_two(&rt), (Answer::Yes, true))
}
