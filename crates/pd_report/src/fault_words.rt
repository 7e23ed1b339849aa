//! The words for faults that a report's reader accepts, in the one order of the definitions.
ghost use Rattle.def_format.specs.Lists.{is_one_of};
ghost use Rattle.def_format.specs.Reports.{match_words, predicate_words, spec_words, stream_words};
ghost use Rattle.pd_report.specs.Reading.{slices_view};
ghost use Rattle.std.specs.Prelude.{◌≡◌};

/// Whether the bytes are one of these texts.
fn is_one_of(word: &[u8], texts: &[&str]) -> bool
    ensures { result ≡ is_one_of (slices_view texts.now) word.now }
{
    texts.iter().any(|text| word == text.as_bytes())
}

/// Whether the bytes are a word for a document's fault.
pub(crate) fn is_spec_word(word: &[u8]) -> bool
    ensures { result ≡ is_one_of spec_words word.now }
{
    is_one_of(
        word,
        &[
            "long",
            "json",
            "shape",
            "processes",
            "name",
            "nametwice",
            "vars",
            "predicates",
            "width",
            "version",
        ],
    )
}

/// Whether the bytes are a word for a predicate's fault.
pub(crate) fn is_predicate_word(word: &[u8]) -> bool
    ensures { result ≡ is_one_of predicate_words word.now }
{
    is_one_of(
        word,
        &[
            "long",
            "character",
            "number",
            "expected",
            "unknownname",
            "depth",
        ],
    )
}

/// Whether the bytes are a word for a stream's fault.
pub(crate) fn is_stream_word(word: &[u8]) -> bool
    ensures { result ≡ is_one_of stream_words word.now }
{
    is_one_of(
        word,
        &[
            "linetoolong",
            "streamtoolong",
            "json",
            "shape",
            "join",
            "unknownprocess",
            "unknownvar",
            "value",
            "messageid",
            "events",
            "unended",
            "read",
            "taken",
        ],
    )
}

/// Whether the bytes are a word for messages that don't match.
pub(crate) fn is_match_word(word: &[u8]) -> bool
    ensures { result ≡ is_one_of match_words word.now }
{
    is_one_of(
        word,
        &["sendtwice", "orphan", "selfmessage", "receivedtwice"],
    )
}
