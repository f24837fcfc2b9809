//! The words that begin events and calls.

ghost use Rattle.log_reader.specs.QuickSteps.{IsWord};

/// The word of an event or of a call.
#[derive(Clone, Copy)]
pub(crate) enum Word {
    Begin,
    End,
    Start,
    Fail,
    Lost,
    Write,
    Read,
    Delete,
    /// Any other text.
    Other,
}

/// The word that a text is.
pub(crate) fn word_of(text: &str) -> Word
    ensures { IsWord result text.now }
{
    match text.as_bytes() {
        [b'b', b'e', b'g', b'i', b'n'] => Word::Begin,
        [b'e', b'n', b'd'] => Word::End,
        [b's', b't', b'a', b'r', b't'] => Word::Start,
        [b'f', b'a', b'i', b'l'] => Word::Fail,
        [b'l', b'o', b's', b't'] => Word::Lost,
        [b'w'] => Word::Write,
        [b'r'] => Word::Read,
        [b'd'] => Word::Delete,
        _ => Word::Other,
    }
}
