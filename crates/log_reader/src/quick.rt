//! Reading lines of the common forms token by token. [`content_of`](crate::content::content_of) reads all other lines.

ghost use Rattle.std.specs.Prelude.{◌≡◌, [], ◌∷◌, IfOk, IfSome, Some};
ghost use Rattle.json.specs.Token.{Token as Tokens};
ghost use Rattle.serde_json.specs.Data.{string};
ghost use Rattle.log_reader.specs.Forms.{answer_at};
ghost use Rattle.log_reader.specs.Names.{name_of as name_at, value_name as value_name_at};
ghost use Rattle.log_reader.specs.QuickSteps.{AreCallRest, AreRest, AreSaid, IsNextCall, IsNextWith, IsSaidIn, IsSaidOn};
ghost use Rattle.log_reader.specs.Steps.{call_view, ending_view, name_in, said_view};

use crate::limits::MAX_LINE_BYTES;
use crate::name_value::NameValue;
use crate::said::{Said, SaidCall, SaidEnding};
use crate::word::{Word, word_of};
use json::{Reader, Scratch, Token};
use json_tokens::whole_number;
use std::alloc::{AllocError, Global};

#[inline]
fn begin_list(reader: &mut Reader<'_>) -> Option<()>
    ensures { IfSome result (λ _. reader.old ≡ Tokens.begin_array ∷ reader.new) }
{
    match reader.next()? {
        Token::BeginArray => Some(()),
        _ => None,
    }
}

#[inline]
fn next_word<'a>(reader: &mut Reader<'a>) -> Option<&'a str>
    ensures { IfSome result (λ word. IsNextWith (λ d. d ≡ string word.now) reader.old reader.new) }
{
    match reader.next()? {
        Token::String(text) => Some(text),
        _ => None,
    }
}

// The name of a client or a key.
#[inline]
fn next_name<'a>(reader: &mut Reader<'a>) -> Option<NameValue<'a>>
    ensures { IfSome result (λ name. IsNextWith (λ d. name_at d ≡ Some (name_in name)) reader.old reader.new) }
{
    match reader.next()? {
        Token::String(text) => Some(NameValue::Text(text)),
        Token::Number(text) => Some(NameValue::Whole(whole_number(text)?)),
        _ => None,
    }
}

#[inline]
fn next_value<'a>(reader: &mut Reader<'a>) -> Option<NameValue<'a>>
    ensures { IfSome result (λ name. IsNextWith (λ d. value_name_at d ≡ Some (name_in name)) reader.old reader.new) }
{
    match reader.next()? {
        Token::String(text) => Some(NameValue::Text(text)),
        Token::Number(text) => Some(NameValue::Whole(whole_number(text)?)),
        Token::Bool(truth) => Some(NameValue::Truth(truth)),
        _ => None,
    }
}

#[inline]
fn next_answer<'a>(reader: &mut Reader<'a>) -> Option<SaidEnding<'a>>
    ensures { IfSome result (λ ending. IsNextWith (λ d. answer_at d ≡ Some (ending_view ending)) reader.old reader.new) }
{
    match reader.next()? {
        Token::Null => Some(SaidEnding::Nothing),
        Token::String(text) => Some(SaidEnding::Answer(NameValue::Text(text))),
        Token::Number(text) => Some(SaidEnding::Answer(NameValue::Whole(whole_number(text)?))),
        Token::Bool(truth) => Some(SaidEnding::Answer(NameValue::Truth(truth))),
        _ => None,
    }
}

// The rest of a call, after its word and its key.
#[inline]
fn rest_of_call<'a>(reader: &mut Reader<'a>, word: &str, key: NameValue<'a>) -> Option<SaidCall<'a>>
    ensures { IfSome result (λ call. AreCallRest word.now (name_in key.entry) reader.old reader.new (call_view call)) }
{
    match word_of(word) {
        Word::Write => Some(SaidCall::Write(key, next_value(reader)?)),
        Word::Read => Some(SaidCall::Read(key)),
        Word::Delete => Some(SaidCall::Delete(key)),
        _ => None,
    }
}

#[inline]
fn next_call<'a>(reader: &mut Reader<'a>) -> Option<SaidCall<'a>>
    ensures { IfSome result (λ call. IsNextCall reader.old reader.new (call_view call)) }
{
    begin_list(reader)?;
    let word = next_word(reader)?;
    let key = next_name(reader)?;
    let call = rest_of_call(reader, word, key)?;
    if reader.take_end_array() {
        Some(call)
    } else {
        None
    }
}

// The rest of an event, after its word and a name.
#[inline]
fn rest_of_said<'a>(reader: &mut Reader<'a>, word: &str, name: NameValue<'a>) -> Option<Said<'a>>
    ensures { IfSome result (λ said. AreRest word.now (name_in name.entry) reader.old reader.new (said_view said)) }
{
    match word_of(word) {
        Word::Begin => Some(Said::Begin(name, next_call(reader)?)),
        Word::End => Some(Said::End(name, next_answer(reader)?)),
        Word::Start => Some(Said::Start(name, next_value(reader)?)),
        Word::Fail => Some(Said::End(name, SaidEnding::Failed)),
        Word::Lost => Some(Said::End(name, SaidEnding::Lost)),
        _ => None,
    }
}

// The event that all tokens say.
fn said_of_tokens<'a>(reader: &mut Reader<'a>) -> Option<Said<'a>>
    ensures { IfSome result (λ said. AreSaid reader.old (said_view said)) }
{
    begin_list(reader)?;
    let word = next_word(reader)?;
    let name = next_name(reader)?;
    let said = rest_of_said(reader, word, name)?;
    if !reader.take_end_array() {
        return None;
    }
    match reader.next() {
        Some(_) => None,
        None => Some(said),
    }
}

// The event that a text says.
fn said_of_text<'a>(
    text: &'a str,
    scratch: &'a mut Scratch<Global>,
) -> Result<Option<Said<'a>>, AllocError>
    ensures { IfOk result (λ o. IfSome o (λ said. IsSaidIn text.now (said_view said))) }
{
    let mut reader = Reader::new(text, scratch)?;
    Ok(said_of_tokens(&mut reader))
}

/// The event that a line says, where it has a common form; none where another function has to read it. O(n) for a line of n bytes.
pub(crate) fn quick_said<'a>(
    line: &'a [u8],
    scratch: &'a mut Scratch<Global>,
) -> Result<Option<Said<'a>>, AllocError>
    ensures { IfOk result (λ o. IfSome o (λ said. IsSaidOn line.now (said_view said))) }
{
    if line.is_empty() || line[0] != b'[' || line.len() > MAX_LINE_BYTES {
        return Ok(None);
    }
    match simdutf8::compat::from_utf8(line) {
        Ok(text) => said_of_text(text, scratch),
        Err(_) => Ok(None),
    }
}
