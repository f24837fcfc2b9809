//! The page of an input.

ghost use Rattle.std.specs.Prelude.{ℕ, List, ◌≡◌, ◌≢◌, ◌⊎◌, Err, IfErr, IfOk, IfSome, OnOk, string_bytes};
ghost use Rattle.std.specs.Io.KnownBytes.{IsAtEnd};
ghost use Rattle.app_engine.specs.Failure.{failure_status};
ghost use Rattle.json_lines.specs.ReadCalls.{IsEnd, IsFurther};
ghost use Rattle.json_lines.specs.WriteCalls.{FailsToTake, PassesOn};
ghost use Rattle.app_engine.specs.Endings.{ReadWhole};
ghost use Rattle.app_engine.specs.InputLengths.{CallsFor, EndsFor, FindsNoEndFor, most_bytes};
ghost use Rattle.app_engine.specs.Running.{Fails, IsOfInput, IsOutput, IsOutputError};
ghost use Rattle.app_pages.specs.Endings.{WritesPageFront};
ghost use Rattle.app_pages.specs.Writing.{IsPageOfInput, IsSaidOfInput, WritesPage, WritesPageOf};
ghost use Rattle.app_pages.specs.Writing.{list_order, listing_order, picture_order, words_order};

use crate::counting::reads_counted;
use app_engine::{
    MAX_READ_CALLS, PieceWork, RunError, SessionWork, WorkerThreads, Workers, explain_as,
    explain_long, list_faults, read_input_for, write_output,
};
use app_orders::{Form, Length, ListForm, Listing, LongForm};
use json_lines::{MAX_WRITE_CALLS, Sink, Source};
use show_page::{MOST_SAID, PageTexts, page_of, said_of};
use std::alloc::{AllocError, Global};
use std::sync::Wait;
use std::thread::Threads;

/// Reads the whole input, lists its faults as JSON, and writes the page of the input and of that list, without names, lines and notes, and
/// with what `explain` says of the input in words, as a list and as a picture.
///
/// At most `most` faults are listed, of a history that may be of that length. The input is kept for the caller, who may say what is wrong
/// with it; where it is too long or could not be read, what was kept before stays.
///
/// Nothing is written before the page is made: after every error but a write fault the writer is as it was, and after a write fault it
/// holds a beginning of the page. A write fault comes only where a write call failed, and a read fault only where a read call did, or as
/// many were made as [`read_input_for`](app_engine::read_input_for) makes. No read call is made after the end or after one that failed.
/// O(n log n) for an input of n bytes, and what [`run`](app_engine::run) takes for two lists, the words and the picture.
pub fn page_of_input<P: Threads + Wait + Sync + AllocGlobal, R: Source, W: Sink>(
    rt: &P,
    reader: &mut R,
    writer: &mut W,
    most: u32,
    length: Length,
    input: &mut Vec<u8>,
) -> Result<(), RunError>
    ensures written { OnOk result (WritesPage (most_bytes length) (IsPageOfInput most length) (R.remaining reader.old)
        (W.contents writer.old) (W.contents writer.new)) }
    ensures end { OnOk result (IsAtEnd (R.remaining reader.new)) }

    ensures failed { IfErr result (Fails (listing_order most length) (R.remaining reader.old)) }
    ensures unwritten { IfErr result (λ e. e ≢ RunError.WriteFault → writer.new ≡ writer.old) }

    ensures kept { (input.new ≡ input.old) ⊎ IfSome (R.remaining reader.old) (λ bytes. input.new.items ≡ bytes) }
    ensures whole { OnOk result (IfSome (R.remaining reader.old) (λ bytes. input.new.items ≡ bytes)) }
    ensures page { OnOk result (WritesPageOf most length input.new.items (W.contents writer.old) (W.contents writer.new)) }
    ensures refused { IfErr result (λ e. failure_status e ≡ 1 → e ≢ RunError.TooLong
        → IsOutputError (listing_order most length) input.new.items e) }
    ensures unread { IfErr result (λ e. (e ≡ RunError.TooLong) ⊎ (e ≡ RunError.ReadFault) → input.new ≡ input.old) }

    ensures read_on { IsFurther (R.remaining reader.old) (R.remaining reader.new) }
    ensures read_whole { ReadWhole result (IsAtEnd (R.remaining reader.new)) }
    ensures begun { result ≡ Err RunError.WriteFault → IsOfInput (most_bytes length) (R.remaining reader.old)
        (λ input. WritesPageFront (IsPageOfInput most length) input (W.contents writer.old) (W.contents writer.new)) }
    ensures begun_kept { result ≡ Err RunError.WriteFault
        → WritesPageFront (IsPageOfInput most length) input.new.items (W.contents writer.old) (W.contents writer.new) }

    // Whatever the reader and the writer report of their calls.
    ensures calls { CallsFor R.called length MAX_READ_CALLS reader.old reader.new }
    ensures end_found { ReadWhole result (EndsFor R.called length MAX_READ_CALLS IsEnd reader.old reader.new) }
    ensures fault { result ≡ Err RunError.ReadFault → FindsNoEndFor R.called length MAX_READ_CALLS reader.old reader.new }
    ensures passed_on { OnOk result (PassesOn W.called writer.old writer.new) }
    ensures write_fault { result ≡ Err RunError.WriteFault → FailsToTake W.called MAX_WRITE_CALLS writer.old writer.new }
{
    *input = read_input_for(rt.alloc(), reader, length)?;
    let work = WorkerThreads::of(rt, Workers::usual());
    let page = page_of_text(&work, rt.alloc(), input.as_slice(), most, length)?;
    write_output(writer, page.as_slice())?;
    Ok(())
}

/// The page of an input in memory, whose history may be of that length. `work` checks the pieces of certificates, or goes over the
/// sessions.
///
/// Refuses what is no such history, and fails for want of memory.
#[tactic(auto, using(crate::proofs::Joined::output_makes_page))]
pub(crate) fn page_of_text<W: PieceWork + SessionWork>(
    work: &W,
    alloc: Global,
    input: &[u8],
    most: u32,
    length: Length,
) -> Result<Vec<u8>, RunError>
    requires can_check { W.can_check work.now }
    requires can_work { W.can_work work.now }
    ensures page { IfOk result (λ page. IsPageOfInput most length input.now page.items) }
    ensures output { OnOk result ((text : List ℕ) × IsOutput (listing_order most length) input.now text) }
    ensures error { IfErr result (IsOutputError (listing_order most length) input.now) }
{
    let listing = Listing {
        most,
        length,
        form: ListForm::Json,
    };
    let report = list_faults(work, alloc, input, listing)?;
    let said = said_of_input(work, alloc, input, report.as_bytes(), most, length)?;
    let texts = PageTexts {
        history: input,
        report: report.as_bytes(),
        names: b"null",
        lines: b"null",
        notes: b"[]",
    };
    let page = page_of(alloc, texts, said.as_slice())?;
    Ok(page)
}

// The part of the page of an input, with a list of its faults as JSON, that is seen where no script runs.
#[tactic(auto, using(crate::proofs::Joined::outputs_make_said))]
fn said_of_input<W: PieceWork + SessionWork>(
    work: &W,
    alloc: Global,
    input: &[u8],
    report: &[u8],
    most: u32,
    length: Length,
) -> Result<Vec<u8>, AllocError>
    requires can_check { W.can_check work.now }
    requires can_work { W.can_work work.now }
    ensures { IfOk result (λ said. IsSaidOfInput length input.now report.now said.items) }
{
    let most = most.min(MOST_SAID);
    let counted = reads_counted(alloc, report)?;
    let words = words_for(work, alloc, input, length)?;
    let list = list_for(work, alloc, input, most, length)?;
    let picture = picture_for(work, alloc, input, length)?;
    said_of(
        alloc,
        words.as_bytes(),
        counted.saturating_sub(u64::from(most)),
        list.as_bytes(),
        picture.as_bytes(),
    )
}

// What a page of an input shows as words. The input was answered before, so that only memory can be short; so of the two below.
fn words_for<W: PieceWork + SessionWork>(
    work: &W,
    alloc: Global,
    input: &[u8],
    length: Length,
) -> Result<String, AllocError>
    requires can_check { W.can_check work.now }
    requires can_work { W.can_work work.now }
    ensures { IfOk result (λ text. IsOutput (words_order length) input.now (string_bytes text)) }
{
    match length {
        Length::Limited => { explain_as(work, alloc, input, Form::Words).map_err(|_| AllocError) },
        Length::Any => {
            explain_long(work, alloc, input, LongForm::Words).map_err(|_| AllocError)
        },
    }
}

// What it shows as a list of at most so many reads.
fn list_for<W: PieceWork + SessionWork>(
    work: &W,
    alloc: Global,
    input: &[u8],
    most: u32,
    length: Length,
) -> Result<String, AllocError>
    requires can_check { W.can_check work.now }
    requires can_work { W.can_work work.now }
    ensures { IfOk result (λ text. IsOutput (list_order most length) input.now (string_bytes text)) }
{
    let listing = Listing {
        most,
        length,
        form: ListForm::Words,
    };
    list_faults(work, alloc, input, listing).map_err(|_| AllocError)
}

// What it shows as a picture.
fn picture_for<W: PieceWork + SessionWork>(
    work: &W,
    alloc: Global,
    input: &[u8],
    length: Length,
) -> Result<String, AllocError>
    requires can_check { W.can_check work.now }
    requires can_work { W.can_work work.now }
    ensures { IfOk result (λ text. IsOutput (picture_order length) input.now (string_bytes text)) }
{
    match length {
        Length::Limited => {
            explain_as(work, alloc, input, Form::Picture).map_err(|_| AllocError)
        },
        Length::Any => {
            explain_long(work, alloc, input, LongForm::Picture).map_err(|_| AllocError)
        },
    }
}
