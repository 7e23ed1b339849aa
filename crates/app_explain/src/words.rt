//! The words of refusals, as a report has them. What each means exactly stands in the definitions of `def_format`.

/// Why a session document is refused.
#[derive(Clone, Copy, PartialEq, Eq)]
pub enum DocumentWord {
    Long,
    Json,
    Shape,
    Processes,
    /// Of a run of any length: it has none, or too many.
    RunProcesses,
    Name,
    NameTwice,
    Vars,
    Predicates,
    Width,
    Version,
}

impl DocumentWord {
    /// The one that a report writes so.
    pub fn of(text: &str) -> Option<DocumentWord> {
        match text {
            "long" => Some(DocumentWord::Long),
            "json" => Some(DocumentWord::Json),
            "shape" => Some(DocumentWord::Shape),
            "processes" => Some(DocumentWord::Processes),
            "name" => Some(DocumentWord::Name),
            "nametwice" => Some(DocumentWord::NameTwice),
            "vars" => Some(DocumentWord::Vars),
            "predicates" => Some(DocumentWord::Predicates),
            "width" => Some(DocumentWord::Width),
            "version" => Some(DocumentWord::Version),
            _ => None,
        }
    }

    /// The one that means the same of a run of any length, whose limits are others.
    pub(crate) fn of_run(self) -> DocumentWord {
        match self {
            DocumentWord::Processes => DocumentWord::RunProcesses,
            word => word,
        }
    }
}

/// Why the text of a predicate is refused.
#[derive(Clone, Copy, PartialEq, Eq)]
pub enum PredicateWord {
    Long,
    Character,
    Number,
    Expected,
    UnknownName,
    Depth,
}

impl PredicateWord {
    /// The one that a report writes so.
    pub fn of(text: &str) -> Option<PredicateWord> {
        match text {
            "long" => Some(PredicateWord::Long),
            "character" => Some(PredicateWord::Character),
            "number" => Some(PredicateWord::Number),
            "expected" => Some(PredicateWord::Expected),
            "unknownname" => Some(PredicateWord::UnknownName),
            "depth" => Some(PredicateWord::Depth),
            _ => None,
        }
    }
}

/// Why a stream is refused.
#[derive(Clone, Copy, PartialEq, Eq)]
pub enum StreamWord {
    LineTooLong,
    StreamTooLong,
    Json,
    Shape,
    Join,
    UnknownProcess,
    UnknownVar,
    Value,
    MessageId,
    Events,
    /// Of a run of any length: there are too many.
    RunEvents,
    Unended,
    Read,
    Taken,
}

impl StreamWord {
    /// The one that a report writes so.
    pub fn of(text: &str) -> Option<StreamWord> {
        match text {
            "linetoolong" => Some(StreamWord::LineTooLong),
            "streamtoolong" => Some(StreamWord::StreamTooLong),
            "json" => Some(StreamWord::Json),
            "shape" => Some(StreamWord::Shape),
            "join" => Some(StreamWord::Join),
            "unknownprocess" => Some(StreamWord::UnknownProcess),
            "unknownvar" => Some(StreamWord::UnknownVar),
            "value" => Some(StreamWord::Value),
            "messageid" => Some(StreamWord::MessageId),
            "events" => Some(StreamWord::Events),
            "unended" => Some(StreamWord::Unended),
            "read" => Some(StreamWord::Read),
            "taken" => Some(StreamWord::Taken),
            _ => None,
        }
    }

    /// The one that means the same of a run of any length, whose limits are others.
    pub(crate) fn of_run(self) -> StreamWord {
        match self {
            StreamWord::Events => StreamWord::RunEvents,
            word => word,
        }
    }
}

/// Why an event's message is refused.
#[derive(Clone, Copy, PartialEq, Eq)]
pub enum MessageWord {
    SendTwice,
    Orphan,
    SelfMessage,
    ReceivedTwice,
}

impl MessageWord {
    /// The one that a report writes so.
    pub fn of(text: &str) -> Option<MessageWord> {
        match text {
            "sendtwice" => Some(MessageWord::SendTwice),
            "orphan" => Some(MessageWord::Orphan),
            "selfmessage" => Some(MessageWord::SelfMessage),
            "receivedtwice" => Some(MessageWord::ReceivedTwice),
            _ => None,
        }
    }
}
