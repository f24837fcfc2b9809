//! How far the work on an input is, and the line on standard error that says so.

use crate::progress_view::ProgressView;
use std::alloc::AllocError;
use std::sync::atomic::{AtomicBool, AtomicU64, Ordering};
use std::sync::{Mutex, Wait};
use std::thread::Parker;
use std::time::{Clock, Duration, Instant};

// How many milliseconds pass before the line is written anew.
const PAUSE_MILLIS: u64 = 250;

// Goes to the start of the line, and wipes it.
const WIPE: &str = "\r\x1b[K";

// How many characters of a line are written to a terminal, so that it does not break.
const COLUMNS: usize = 79;

/// How far the work on an input is. The thread that works tells it, and another one shows it.
///
/// On a terminal it is one line, which is rewritten, and wiped before anything else is written; elsewhere each line stays.
#[derive(Drop)]
pub(crate) struct Progress<'a> {
    view: ProgressView<'a>,
    began: Option<Instant>,
    /// How many bytes were read.
    read: AtomicU64,
    /// Whether the input has ended, the answer has begun, and the work is over.
    is_read: AtomicBool,
    is_answered: AtomicBool,
    is_over: AtomicBool,
    /// Wakes the thread that shows it.
    alarm: Parker,
    line: Mutex<Line>,
}

/// The line that standard error shows.
#[derive(Clone, Copy, Drop)]
struct Line {
    /// Whether the terminal shows a line.
    is_shown: bool,
    /// Whether something else is being written there.
    is_held: bool,
    /// After how many seconds a line was written last.
    last: Option<u64>,
}

impl<'a> Progress<'a> {
    /// The progress of work that begins now.
    pub(crate) fn of(clock: &impl Clock, view: ProgressView<'a>) -> Progress<'a> {
        Progress {
            view,
            began: Instant::now(clock).ok(),
            read: AtomicU64::new(0),
            is_read: AtomicBool::new(false),
            is_answered: AtomicBool::new(false),
            is_over: AtomicBool::new(false),
            alarm: Parker::new(),
            line: Mutex::new(Line {
                is_shown: false,
                is_held: false,
                last: None,
            }),
        }
    }

    /// Some bytes more were read.
    pub(crate) fn add_read(&self, count: usize) {
        self.read.fetch_add(count as u64, Ordering::SeqCst);
    }

    /// There is nothing more to read.
    pub(crate) fn end_input(&self) {
        self.is_read.store(true, Ordering::SeqCst);
    }

    /// Shows it several times a second, until the work is over.
    pub(crate) fn watch<P: Wait + AllocGlobal + Eprint + Clock>(&self, rt: &P) {
        for _ in rt.forever() {
            self.alarm
                .park_timeout(rt, Duration::from_millis(PAUSE_MILLIS));
            if self.is_over.load(Ordering::SeqCst) {
                return;
            }
            self.show(rt);
        }
    }

    /// The work is over: the line is wiped, and none comes any more.
    pub(crate) fn end<P: Wait + Eprint>(&self, rt: &P) {
        self.is_over.store(true, Ordering::SeqCst);
        self.hold(rt);
        self.alarm.unpark();
    }

    /// Wipes the line, and shows none before [`Progress::let_go`].
    pub(crate) fn hold<P: Wait + Eprint>(&self, rt: &P) {
        let mut guard = self.line.lock(rt);
        let line = &mut *guard;
        if line.is_shown {
            let _ = rt.eprint(WIPE);
        }
        line.is_shown = false;
        line.is_held = true;
    }

    /// Lines may be shown again.
    pub(crate) fn let_go<P: Wait>(&self, rt: &P) {
        let mut guard = self.line.lock(rt);
        let line = &mut *guard;
        line.is_held = self.is_over.load(Ordering::SeqCst);
    }

    /// Makes room for some bytes of the answer.
    pub(crate) fn before_answer<P: Wait + Eprint>(&self, rt: &P) {
        self.is_answered.store(true, Ordering::SeqCst);
        if self.view.shares_terminal {
            self.hold(rt);
        }
    }

    /// Some bytes of the answer were written: lines may be shown again where its last line is whole.
    pub(crate) fn after_answer<P: Wait>(&self, rt: &P, is_whole: bool) {
        if self.view.shares_terminal && is_whole {
            self.let_go(rt);
        }
    }

    /// Shows it, where it is time to do so.
    pub(crate) fn show<P: Wait + AllocGlobal + Eprint + Clock>(&self, rt: &P) {
        let seconds = self.seconds(rt);
        if seconds == 0 && !self.view.is_asked_for {
            return;
        }
        let mut guard = self.line.lock(rt);
        let line = &mut *guard;
        if line.is_held || (!self.view.is_terminal && line.last == Some(seconds)) {
            return;
        }
        if let Ok(text) = self.text(rt, seconds) {
            let _ = rt.eprint(text);
            line.is_shown = self.view.is_terminal;
            line.last = Some(seconds);
        }
    }

    // How many whole seconds the work took so far.
    fn seconds(&self, clock: &impl Clock) -> u64 {
        match self.began {
            Some(began) => match began.elapsed(clock) {
                Ok(elapsed) => elapsed.as_secs(),
                Err(_) => 0,
            },
            None => 0,
        }
    }

    // The line, with what ends it or the line before it.
    fn text<P: AllocGlobal>(&self, rt: &P, seconds: u64) -> Result<String, AllocError> {
        let alloc = rt.alloc();
        let read = self.read.load(Ordering::SeqCst);
        let is_read = self.is_read.load(Ordering::SeqCst);
        let is_answered = self.is_answered.load(Ordering::SeqCst);
        let said = self.view.said(alloc, read, is_read, is_answered)?;
        if !self.view.is_terminal {
            return format!(in alloc; "{said}, {seconds} s\n");
        }
        let whole = format!(in alloc; "{said}, {seconds} s")?;
        let mut text = String::new(alloc);
        text.push_str(WIPE)?;
        for character in whole.chars().take(COLUMNS) {
            text.push(character)?;
        }
        Ok(text)
    }
}
