//! What is wrong with a text that is no JSON.

/// What may come at a place of a JSON text.
#[derive(Clone, Copy)]
pub(crate) enum Expected {
    /// A value.
    Value,
    /// A value, or the end of the list that has begun.
    ValueOrEnd,
    /// A key.
    Key,
    /// A key, or the end of the object that has begun.
    KeyOrEnd,
    /// More of a list, or its end.
    List,
    /// More of an object, or its end.
    Object,
    /// Nothing.
    End,
}

impl Expected {
    /// Whether nothing may come.
    pub(crate) fn is_end(self) -> bool {
        matches!(self, Expected::End)
    }

    /// Whether a value may come.
    pub(crate) fn is_value(self) -> bool {
        matches!(self, Expected::Value | Expected::ValueOrEnd)
    }

    /// Whether a key may come.
    pub(crate) fn is_key(self) -> bool {
        matches!(self, Expected::Key | Expected::KeyOrEnd)
    }

    /// Whether a list may end.
    pub(crate) fn is_end_of_list(self) -> bool {
        matches!(self, Expected::ValueOrEnd | Expected::List)
    }

    /// Whether an object may end.
    pub(crate) fn is_end_of_object(self) -> bool {
        matches!(self, Expected::KeyOrEnd | Expected::Object)
    }

    fn words(self) -> &'static str {
        match self {
            Expected::Value => "expected a value",
            Expected::ValueOrEnd => "expected a value or ']'",
            Expected::Key => "expected a key in quotes and ':'",
            Expected::KeyOrEnd => "expected a key in quotes and ':', or '}'",
            Expected::List => "expected ',' or ']'",
            Expected::Object => "expected ',' or '}'",
            Expected::End => "expected the end of the text",
        }
    }
}

/// What is wrong at a byte of a text that is no JSON: the words before the byte and after it.
#[derive(Clone, Copy)]
pub(crate) struct JsonFault {
    pub(crate) before: &'static str,
    pub(crate) after: &'static str,
}

/// Bytes that are no UTF-8.
pub(crate) const NO_TEXT: JsonFault = JsonFault {
    before: "no UTF-8",
    after: "",
};

/// Bytes that are no text.
pub(crate) const BINARY: JsonFault = JsonFault {
    before: "binary data",
    after: "",
};

/// Words without quotes, before any list.
pub(crate) const PLAIN_TEXT: JsonFault = JsonFault {
    before: "plain text",
    after: ", where a list is expected",
};

/// A single quote.
pub(crate) const SINGLE_QUOTE: JsonFault = JsonFault {
    before: "a single quote",
    after: ", where JSON has a double one",
};

/// A list after the whole text, as in lines of histories.
pub(crate) const SECOND_LIST: JsonFault = JsonFault {
    before: "expected the end of the text",
    after: ", where another list begins: judge --lines reads a history a line",
};

/// A list after an event of a log.
pub(crate) const SECOND_EVENT: JsonFault = JsonFault {
    before: "expected the end of the text",
    after: ", where another list begins",
};

/// A text that a colon follows, where a value is expected.
pub(crate) const KEY: JsonFault = JsonFault {
    before: "a key",
    after: ", which is in no object",
};

/// A text that does not end, or not on its line.
pub(crate) const NO_QUOTE: JsonFault = JsonFault {
    before: "the text that begins",
    after: " has no closing quote",
};

/// A text that has a wrong escape or a control character.
pub(crate) const BAD_TEXT: JsonFault = JsonFault {
    before: "the text that begins",
    after: " has a wrong escape or a control character",
};

/// A number that is too large.
pub(crate) const LARGE: JsonFault = JsonFault {
    before: "the number",
    after: " is too large",
};

/// One more nested list or object than is read. The number is `json_bounded::MAX_DEPTH`, with which the table `why_texts` compares it.
pub(crate) const DEEP: JsonFault = JsonFault {
    before: "more than 127 lists and objects in one another",
    after: "",
};

/// The fault where something else than this is expected.
pub(crate) fn other_than(expected: Expected) -> JsonFault {
    JsonFault {
        before: expected.words(),
        after: "",
    }
}

/// The fault where the text ends before this, outside all lists and objects.
pub(crate) fn ends_before(expected: Expected) -> JsonFault {
    JsonFault {
        before: expected.words(),
        after: ", where the text ends",
    }
}

/// The fault where the text ends before this, in a list or an object.
pub(crate) fn breaks_off_before(expected: Expected) -> JsonFault {
    JsonFault {
        before: expected.words(),
        after: ", where the text breaks off: a closing bracket is missing",
    }
}
