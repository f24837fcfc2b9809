//! What is known of the operations of a log's history, and of its names.

ghost use Rattle.std.specs.Prelude.{◌≡◌, List, option_map, IfOk, IfSome, string_bytes};
ghost use Rattle.log_events.specs.Events.{Call};
ghost use Rattle.log_events.specs.Histories.{clients as clients_in};
ghost use Rattle.log_choices.specs.Exclusions.{IsLackingRead};
ghost use Rattle.log_reader.specs.EventLines.{line_at};
ghost use Rattle.log_reader.specs.Logs.{Log};
ghost use Rattle.show_log_names.specs.OperationLines.{origin_of, stood_for as stood_for_call};
ghost use Rattle.show_log_names.specs.TableNames.{IsNameAt};

use log_choices::LackingRead;
use log_events::{ClientCall, Ending};
use model_history::OpId;
use std::alloc::{AllocError, Global};

/// A call of a log that an operation of its history represents.
#[derive(Clone, Copy, Debug, PartialEq, Eq)]
pub struct StoodFor {
    /// The client that called.
    pub client: u32,
    /// The place of its begin among the events of the log.
    pub place: u32,
    /// What was called.
    pub call: ClientCall,
    /// How it ended, where it did.
    pub ending: Option<Ending>,
}

/// A note of a call.
#[derive(Drop)]
pub struct CallNote {
    /// The number of the line that has it, from 1.
    pub line: u64,
    /// The JSON text of the note.
    pub text: String,
}

/// What is known of the operations of a log's history, and of its names.
///
/// Names and notes are JSON texts with no line feed, in which no character disturbs a terminal. No contract restricts notes, nor a name
/// of a number that the log does not have. Each call that gives a text fails for want of memory alone.
pub trait LogTables {
    /// The log.
    ghost log: { Self → Log };

    /// For each session of the history, the calls that its operations represent.
    ghost calls: { Self → List (List Call) };

    /// The call that an operation of the history represents: none where the history has no such operation.
    fn stood_for(&self, op: OpId) -> Option<StoodFor>
        ensures { result ≡ option_map stood_for_call (origin_of (calls self.now) op) };

    /// How many sessions are those of clients: the first ones. The others are those of lost writes and deletes.
    fn clients(&self) -> u64
        ensures { result ≡ clients_in (log self.now).events };

    /// The number of the line on which the event at a place is, from 1.
    fn line(&self, place: u32) -> u64
        ensures { result ≡ line_at (log self.now) place };

    /// The name of a client.
    fn client_name(&self, alloc: Global, client: u32) -> Result<String, AllocError>
        ensures { IfOk result (λ text. IsNameAt (log self.now).clients client (string_bytes text)) };

    /// The name of a key.
    fn key_name(&self, alloc: Global, key: u32) -> Result<String, AllocError>
        ensures { IfOk result (λ text. IsNameAt (log self.now).keys key (string_bytes text)) };

    /// A value as it is written.
    fn value_name(&self, alloc: Global, value: u32) -> Result<String, AllocError>
        ensures { IfOk result (λ text. IsNameAt (log self.now).values value (string_bytes text)) };

    /// The note on the begin or on the end of the call that began at a place: none where there is none.
    fn note(&self, alloc: Global, place: u32, is_end: bool) -> Result<Option<CallNote>, AllocError>;

    /// The keys at which reads found nothing and are left out of the history, each with the number of these reads.
    fn left_out(&self) -> &[(u32, u32)];

    /// How many reads that found nothing at such keys stand in the history, since one thing alone can be what they saw.
    fn asked(&self) -> u64;

    /// The first read that found nothing, though nothing is left that it can have seen, if there is such a read.
    fn lacking(&self) -> Option<&LackingRead>
        ensures { IfSome result (λ read. IsLackingRead (log self.now).in_time (log self.now).events read.now) };
}
