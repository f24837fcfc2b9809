//! The page of a history.

ghost use Rattle.std.specs.Prelude.{◌≡◌, ◌++◌, IfOk, OnOk};
ghost use Rattle.show_page.specs.Pages.{head, more_words, page, said, tail};

use crate::drawing::DRAWING;
use crate::escaping::{Within, push_escaped};
use crate::frame::{
    BEFORE_LINES, BEFORE_LIST, BEFORE_MORE, BEFORE_NAMES, BEFORE_NOTES, BEFORE_PICTURE,
    BEFORE_REPORT, BEFORE_SCRIPT, BEFORE_WORDS, BODY, ENDING, OPENING,
};
use crate::script::SCRIPT;
use crate::style::STYLE;
use crate::zooming::ZOOMING;
use std::alloc::{AllocError, Global};

/// The JSON texts that the script of a page reads.
#[derive(Clone, Copy)]
pub struct PageTexts<'a> {
    /// The history.
    pub history: &'a [u8],
    /// The reasons and the list of faults, as the engine lists them.
    pub report: &'a [u8],
    /// The names of the log from which the history comes, or `null` where there is no log.
    pub names: &'a [u8],
    /// The lines on which the calls of its operations begin, or `null`.
    pub lines: &'a [u8],
    /// The notes of its lines, or an empty list.
    pub notes: &'a [u8],
}

/// The page of some JSON texts, and of what is said without a script: an HTML document that needs no other file.
///
/// The last part is that of [`said_of`], and a page has it as it is. The function does not check what the texts are. Fails for want of
/// memory alone. O(n) for n bytes.
pub fn page_of(alloc: Global, texts: PageTexts<'_>, part: &[u8]) -> Result<Vec<u8>, AllocError>
    ensures { IfOk result (λ bytes. bytes.items
        ≡ page texts.entry.history.now texts.entry.report.now texts.entry.names.now texts.entry.lines.now texts.entry.notes.now part.now) }
{
    let mut bytes = Vec::new(alloc);
    push_head(&mut bytes)?;
    push_escaped(&mut bytes, texts.history, Within::Json)?;
    push_text(&mut bytes, BEFORE_REPORT)?;
    push_escaped(&mut bytes, texts.report, Within::Json)?;
    push_text(&mut bytes, BEFORE_NAMES)?;
    push_escaped(&mut bytes, texts.names, Within::Json)?;
    push_text(&mut bytes, BEFORE_LINES)?;
    push_escaped(&mut bytes, texts.lines, Within::Json)?;
    push_text(&mut bytes, BEFORE_NOTES)?;
    push_escaped(&mut bytes, texts.notes, Within::Json)?;
    push_bytes(&mut bytes, part)?;
    push_tail(&mut bytes)?;
    Ok(bytes)
}

/// The part of a page that is seen where no script runs: words, how many more reads there are than the list has, the list and a picture.
///
/// The words and the list are shown as they are. The picture has to be one SVG element: the part has it as it is. Fails for want of memory
/// alone. O(n) for n bytes.
pub fn said_of(
    alloc: Global,
    words: &[u8],
    more: u64,
    list: &[u8],
    picture: &[u8],
) -> Result<Vec<u8>, AllocError>
    ensures { IfOk result (λ bytes. bytes.items ≡ said words.now more list.now picture.now) }
{
    let mut bytes = Vec::new(alloc);
    push_text(&mut bytes, BEFORE_WORDS)?;
    push_escaped(&mut bytes, words, Within::Markup)?;
    push_text(&mut bytes, BEFORE_MORE)?;
    push_more(alloc, &mut bytes, more)?;
    push_text(&mut bytes, BEFORE_LIST)?;
    push_escaped(&mut bytes, list, Within::Markup)?;
    push_text(&mut bytes, BEFORE_PICTURE)?;
    push_bytes(&mut bytes, picture)?;
    Ok(bytes)
}

// Appends how many more reads there are than the list has.
fn push_more(alloc: Global, page: &mut Vec<u8>, more: u64) -> Result<(), AllocError>
    ensures { OnOk result (page.new.items ≡ page.old.items ++ more_words more) }
{
    if more == 0 {
        return Ok(());
    }
    if more == 1 {
        return push_text(page, ": 1 more is not");
    }
    push_text(page, &format!(in alloc; ": {more} more are not")?)
}

// Appends what comes before the history.
fn push_head(page: &mut Vec<u8>) -> Result<(), AllocError>
    ensures { OnOk result (page.new.items ≡ page.old.items ++ head) }
{
    push_text(page, OPENING)?;
    push_text(page, STYLE)?;
    push_text(page, BODY)?;
    Ok(())
}

// Appends what comes after the picture.
fn push_tail(page: &mut Vec<u8>) -> Result<(), AllocError>
    ensures { OnOk result (page.new.items ≡ page.old.items ++ tail) }
{
    push_text(page, BEFORE_SCRIPT)?;
    push_text(page, SCRIPT)?;
    push_text(page, ZOOMING)?;
    push_text(page, DRAWING)?;
    push_text(page, ENDING)?;
    Ok(())
}

// Appends a text.
fn push_text(page: &mut Vec<u8>, text: &str) -> Result<(), AllocError>
    ensures { OnOk result (page.new.items ≡ page.old.items ++ text.now) }
{
    push_bytes(page, text.as_bytes())
}

// Appends bytes as they are.
fn push_bytes(page: &mut Vec<u8>, bytes: &[u8]) -> Result<(), AllocError>
    ensures { OnOk result (page.new.items ≡ page.old.items ++ bytes.now) }
{
    page.extend_from_slice(bytes)?;
    Ok(())
}
