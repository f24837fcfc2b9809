//! All that the words after a command say, and the order that they give.

ghost use Rattle.std.specs.Prelude.{◌≡◌, false, option_map, true};
ghost use Rattle.app_orders.specs.declared.order.Task.TheVariants.{OfInput, OfLog};
ghost use Rattle.app_command_line.specs.Options.{and_also, asked_for, blank_for, delivery_for, detail_for, drive_for, drive_of, events_for};
ghost use Rattle.app_command_line.specs.Options.{explain_for, explain_of, form_for, judge_for, judge_lines_of, judge_one_of, judging_for};
ghost use Rattle.app_command_line.specs.Options.{length_for, line_judging_for, list_form_for, listing_of, log_judging_for, long_form_for};
ghost use Rattle.app_command_line.specs.Options.{manner_for, page_for, page_of_what, page_with, said_on, says, says_form, says_of_one};
ghost use Rattle.app_command_line.specs.Options.{task_for, unsaid, with_setting};
ghost use Rattle.app_command_line.specs.Options.{workers_for};

use crate::settings::{CommandName, Setting};
use crate::sight::Sight;
use app_orders::{
    Asked, BlankLines, Coloring, Detail, Drive, Expected, Form, Judging, Length, LineJudging,
    ListForm, Listing, LogJudging, LogOrder, LongForm, Manner, Order, Page, PageOf, Store, Task,
    USUAL_LISTED,
};
use judge_workers::Workers;
use live_replica::Delivery;

/// All that was said to a command.
#[derive(Clone, Copy, Debug, PartialEq, Eq)]
pub struct Said {
    command: CommandName,
    store: Option<Store>,
    eager: bool,
    seals: Option<u8>,
    workers: Option<Workers>,
    stop: Option<usize>,
    expected: Option<Expected>,
    lines: bool,
    skip_blank: bool,
    long: bool,
    all: Option<u32>,
    json: bool,
    certificates: bool,
    svg: bool,
    html: bool,
    events: bool,
    every: Option<u32>,
    names: bool,
    notes: bool,
    why: bool,
    output: bool,
    summary: bool,
    least_reads: Option<u32>,
    coloring: Option<Coloring>,
    progress: bool,
}

impl Said {
    /// Nothing yet.
    pub fn nothing(command: CommandName) -> Said
        ensures { result ≡ unsaid command }
    {
        Said {
            command,
            store: None,
            eager: false,
            seals: None,
            workers: None,
            stop: None,
            expected: None,
            lines: false,
            skip_blank: false,
            long: false,
            all: None,
            json: false,
            certificates: false,
            svg: false,
            html: false,
            events: false,
            every: None,
            names: false,
            notes: false,
            why: false,
            output: false,
            summary: false,
            least_reads: None,
            coloring: None,
            progress: false,
        }
    }

    /// With one thing more; none where it was said before, or the command doesn't take it.
    pub fn and_also(&self, setting: &Setting) -> Option<Said>
        ensures { result ≡ and_also self.now setting.now }
    {
        if self.command.takes(setting) && !self.says(setting) {
            Some(self.with(setting))
        } else {
            None
        }
    }

    // Whether such a thing was said.
    fn says(&self, setting: &Setting) -> bool
        ensures { result ≡ says self.now setting.now }
    {
        match setting {
            Setting::Store(_) => self.store.is_some(),
            Setting::Eager => self.eager,
            Setting::Seals(_) => self.seals.is_some(),
            Setting::Workers(_) => self.workers.is_some(),
            Setting::Stop(_) => self.stop.is_some(),
            Setting::Expect(_) => self.expected.is_some(),
            Setting::Lines => self.lines,
            Setting::SkipBlank => self.skip_blank,
            Setting::Long => self.long,
            Setting::All(_) => self.all.is_some(),
            Setting::Json => self.json,
            Setting::Certificates => self.certificates,
            Setting::Svg => self.svg,
            Setting::Html => self.html,
            Setting::Events => self.events,
            Setting::Every(_) => self.every.is_some(),
            Setting::Names => self.names,
            Setting::Notes => self.notes,
            Setting::Why => self.why,
            Setting::Output => self.output,
            Setting::Summary => self.summary,
            Setting::AtLeastReads(_) => self.least_reads.is_some(),
            Setting::Color(_) => self.coloring.is_some(),
            Setting::Progress => self.progress,
        }
    }

    // With one thing more.
    fn with(&self, setting: &Setting) -> Said
        ensures { result ≡ with_setting self.now setting.now }
    {
        let mut said = *self;
        match setting {
            Setting::Store(store) => said.store = Some(*store),
            Setting::Eager => said.eager = true,
            Setting::Seals(seals) => said.seals = Some(*seals),
            Setting::Workers(workers) => said.workers = Some(*workers),
            Setting::Stop(session) => said.stop = Some(*session),
            Setting::Expect(expected) => said.expected = Some(*expected),
            Setting::Lines => said.lines = true,
            Setting::SkipBlank => said.skip_blank = true,
            Setting::Long => said.long = true,
            Setting::All(most) => said.all = Some(*most),
            Setting::Json => said.json = true,
            Setting::Certificates => said.certificates = true,
            Setting::Svg => said.svg = true,
            Setting::Html => said.html = true,
            Setting::Events => said.events = true,
            Setting::Every(events) => said.every = Some(*events),
            Setting::Names => said.names = true,
            Setting::Notes => said.notes = true,
            Setting::Why => said.why = true,
            Setting::Output => said.output = true,
            Setting::Summary => said.summary = true,
            Setting::AtLeastReads(least) => said.least_reads = Some(*least),
            Setting::Color(coloring) => said.coloring = Some(*coloring),
            Setting::Progress => said.progress = true,
        }
        said
    }

    /// What is asked for on an input that looks so; none where a store is missing, or what was said doesn't go together.
    pub fn asked(&self, sight: Sight) -> Option<Asked>
        ensures { result ≡ asked_for sight self.now }
    {
        match self.on(sight).task() {
            Some(task) => Some(Asked {
                task,
                manner: self.manner(),
            }),
            None => None,
        }
    }

    fn manner(&self) -> Manner
        ensures { result ≡ manner_for self.now }
    {
        Manner {
            to_file: self.output,
            summary: self.summary,
            least_reads: self.least_reads,
            coloring: self.coloring.unwrap_or(Coloring::Auto),
            progress: self.progress,
        }
    }

    // What counts as said on an input that looks so.
    fn on(&self, sight: Sight) -> Said
        ensures { result ≡ said_on sight self.now }
    {
        let mut said = *self;
        match sight {
            Sight::Unseen => {}
            Sight::Log => said.events = true,
            Sight::Memory => {
                said.long = self.long || !self.certificates;
                said.why = true;
            }
            Sight::Other => said.why = true,
        }
        said
    }

    // The task that was given; none where a store is missing, or what was said doesn't go together.
    fn task(&self) -> Option<Task>
        ensures { result ≡ task_for self.now }
    {
        match self.command {
            CommandName::Judge => self.judge(),
            CommandName::Check => Some(self.of_input(Order::Check(self.workers()))),
            CommandName::Explain => self.explain(),
            CommandName::Refute => Some(self.of_input(Order::Refute(self.length()))),
            CommandName::Replay => Some(self.of_input(Order::Replay)),
            CommandName::Drive => Some(self.of_input(Order::Drive(self.drive()?))),
            CommandName::Events => self.events(),
        }
    }

    // An order on an input, with the detail that the options give for a refused input.
    fn of_input(&self, order: Order) -> Task
        ensures { result ≡ OfInput order (detail_for self.now) }
    {
        Task::OfInput(order, self.detail())
    }

    fn detail(&self) -> Detail
        ensures { result ≡ detail_for self.now }
    {
        if self.why || self.long {
            Detail::Reason
        } else {
            Detail::Number
        }
    }

    // The task to judge one history, or one in each line, or a log; none where what was said doesn't go together.
    fn judge(&self) -> Option<Task>
        ensures { result ≡ judge_for self.now }
    {
        match (self.lines, self.skip_blank) {
            (true, _) => self.judge_lines(),
            (false, false) => self.judge_one(),
            (false, true) => None,
        }
    }

    // The task to judge one history, or a log; none where what was said doesn't go together.
    fn judge_one(&self) -> Option<Task>
        ensures { result ≡ judge_one_of self.now.events self.now.every self.now }
    {
        match (self.events, self.every) {
            (false, None) => Some(self.of_input(Order::Judge(self.judging()))),
            (true, _) => Some(Task::OfLog(LogOrder::Judge(self.log_judging()))),
            (false, Some(_)) => None,
        }
    }

    // The task to judge the history in each line; none where what was said doesn't go together.
    fn judge_lines(&self) -> Option<Task>
        ensures { result ≡ judge_lines_of self.now.events self.now.every (says_of_one self.now) self.now }
    {
        match (self.events, self.every, self.says_of_one()) {
            (false, None, false) => Some(Task::OfInput(
                Order::JudgeLines(self.line_judging()),
                Detail::Number,
            )),
            _ => None,
        }
    }

    // Whether something was said that is of one history or log alone.
    fn says_of_one(&self) -> bool
        ensures { result ≡ says_of_one self.now }
    {
        self.why || self.summary || self.least_reads.is_some()
    }

    fn line_judging(&self) -> LineJudging
        ensures { result ≡ line_judging_for self.now }
    {
        LineJudging {
            judging: self.judging(),
            blank: self.blank(),
        }
    }

    fn blank(&self) -> BlankLines
        ensures { result ≡ blank_for self.now }
    {
        if self.skip_blank {
            BlankLines::Skipped
        } else {
            BlankLines::Refused
        }
    }

    fn log_judging(&self) -> LogJudging
        ensures { result ≡ log_judging_for self.now }
    {
        LogJudging {
            workers: self.workers(),
            expected: self.expected.unwrap_or(Expected::nothing()),
            every: self.every,
        }
    }

    // The task to write what a log has; none where what was said doesn't go together.
    fn events(&self) -> Option<Task>
        ensures { result ≡ events_for self.now }
    {
        match (self.names, self.notes) {
            (false, false) => Some(Task::OfLog(LogOrder::WriteHistory)),
            (true, false) => Some(Task::OfLog(LogOrder::WriteNames)),
            (false, true) => Some(Task::OfLog(LogOrder::WriteNotes)),
            (true, true) => None,
        }
    }

    fn judging(&self) -> Judging
        ensures { result ≡ judging_for self.now }
    {
        Judging {
            workers: self.workers(),
            expected: self.expected.unwrap_or(Expected::nothing()),
            length: self.length(),
        }
    }

    fn length(&self) -> Length
        ensures { result ≡ length_for self.now }
    {
        if self.long {
            Length::Any
        } else {
            Length::Limited
        }
    }

    fn workers(&self) -> Workers
        ensures { result ≡ workers_for self.now }
    {
        self.workers.unwrap_or(Workers::usual())
    }

    // The task to explain; none where what was said doesn't go together.
    fn explain(&self) -> Option<Task>
        ensures { result ≡ explain_for self.now }
    {
        if self.html {
            self.page()
        } else {
            self.reasons()
        }
    }

    // The task to write a page; none where what was said doesn't go together.
    fn page(&self) -> Option<Task>
        ensures { result ≡ page_for self.now }
    {
        if self.says_form() {
            return None;
        }
        Some(Task::OfPage(self.page_with(self.page_of()), self.detail()))
    }

    // Whether another form than a page was said.
    fn says_form(&self) -> bool
        ensures { result ≡ says_form self.now }
    {
        self.json || self.certificates || self.svg
    }

    // What a page is of.
    fn page_of(&self) -> PageOf
        ensures { result ≡ page_of_what self.now.events (length_for self.now) }
    {
        if self.events {
            PageOf::Log
        } else {
            PageOf::Input(self.length())
        }
    }

    fn page_with(&self, of: PageOf) -> Page
        ensures { result ≡ page_with self.now of }
    {
        Page {
            most: self.all.unwrap_or(USUAL_LISTED),
            of,
        }
    }

    // The task to give reasons or to list reads; none where what was said doesn't go together.
    fn reasons(&self) -> Option<Task>
        ensures { result ≡ explain_of self.now.all self.now.events self.now.long self.now }
    {
        if self.events {
            Some(Task::OfLog(self.explain_log()?))
        } else {
            Some(self.of_input(self.explain_input()?))
        }
    }

    // The order to explain a history; none where what was said doesn't go together.
    fn explain_input(&self) -> Option<Order>
        ensures { explain_of self.now.all false self.now.long self.now ≡ option_map (λ order. OfInput order (detail_for self.now)) result }
    {
        match (self.all, self.long) {
            (Some(most), _) => Some(Order::ListFaults(self.listing_of(most, self.list_form()?))),
            (None, true) => Some(Order::ExplainLong(self.long_form()?)),
            (None, false) => Some(Order::Explain(self.form()?)),
        }
    }

    // The order to explain a log; none where what was said doesn't go together.
    fn explain_log(&self) -> Option<LogOrder>
        ensures { explain_of self.now.all true self.now.long self.now ≡ option_map (λ order. OfLog order) result }
    {
        match self.all {
            Some(most) => Some(LogOrder::ListFaults(most, self.list_form()?)),
            None => Some(LogOrder::Explain(self.long_form()?)),
        }
    }

    fn listing_of(&self, most: u32, form: ListForm) -> Listing
        ensures { result ≡ listing_of self.now most form }
    {
        Listing {
            most,
            length: self.length(),
            form,
        }
    }

    // The form of a list; none where what was said doesn't go together.
    fn list_form(&self) -> Option<ListForm>
        ensures { result ≡ list_form_for self.now }
    {
        match (self.json, self.certificates, self.svg) {
            (false, false, false) => Some(ListForm::Words),
            (true, false, false) => Some(ListForm::Json),
            _ => None,
        }
    }

    // The form of a reason on a long history; none where what was said doesn't go together.
    fn long_form(&self) -> Option<LongForm>
        ensures { result ≡ long_form_for self.now }
    {
        match (self.json, self.certificates, self.svg) {
            (false, false, false) => Some(LongForm::Words),
            (true, false, false) => Some(LongForm::Json),
            (false, false, true) => Some(LongForm::Picture),
            _ => None,
        }
    }

    // The form of a reason; none where what was said doesn't go together.
    fn form(&self) -> Option<Form>
        ensures { result ≡ form_for self.now }
    {
        match (self.json, self.certificates, self.svg) {
            (false, false, false) => Some(Form::Words),
            (true, false, false) => Some(Form::Json),
            (true, true, false) => Some(Form::Certificates),
            (false, false, true) => Some(Form::Picture),
            _ => None,
        }
    }

    // The drive that is asked for, if a store is named.
    fn drive(&self) -> Option<Drive>
        ensures { result ≡ drive_for self.now }
    {
        match self.store {
            Some(store) => Some(self.drive_of(store)),
            None => None,
        }
    }

    fn drive_of(&self, store: Store) -> Drive
        ensures { result ≡ drive_of self.now store }
    {
        Drive {
            store,
            delivery: self.delivery(),
            seals: self.seals.unwrap_or(0),
            workers: self.workers(),
            stop: self.stop,
        }
    }

    fn delivery(&self) -> Delivery
        ensures { result ≡ delivery_for self.now }
    {
        if self.eager {
            Delivery::Eager
        } else {
            Delivery::Causal
        }
    }
}
