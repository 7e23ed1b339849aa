//! The kinds of answers that a condition can ask for.
ghost use Rattle.app_arguments.specs.Conditions.{kind_text};
ghost use Rattle.judge_runs.specs.Wishes.{is_of_kind};
ghost use Rattle.judge_runs.specs.Wishes as wishes;
ghost use Rattle.app_arguments.specs.ConditionViews.{kind_view};
ghost use Rattle.pd_report.specs.Views.{answer_view};
ghost use Rattle.std.specs.Prelude.{◌≡◌, MatchOption, false, true};

use pd_report::{Answer, Definitely, Possibly};

/// The kinds of answers that a condition can ask for.
#[derive(Clone, Copy, Debug)]
pub enum Kind {
    /// Some consistent cut satisfies the predicate.
    Possibly,
    /// None does.
    PossiblyNo,
    /// Every observation passes through a cut that satisfies it.
    Definitely,
    /// Some observation passes through none.
    DefinitelyNo,
    /// One of the two questions has no answer within the width.
    Unknown,
}

/// Whether the bytes are this text.
fn is(word: &[u8], text: &str) -> bool
    ensures yes { result ≡ true → word.now ≡ text.now }
    ensures no { result ≡ false → ¬ (word.now ≡ text.now) }
{
    word == text.as_bytes()
}

/// The kind of this word, if it is one's.
pub(crate) fn kind_of(word: &[u8]) -> Option<Kind>
    ensures { MatchOption result ((kind : wishes.Kind) → ¬ (word.now ≡ kind_text kind))
        (λ kind. word.now ≡ kind_text (kind_view kind)) }
{
    if is(word, "possibly") {
        return Some(Kind::Possibly);
    }
    if is(word, "possibly-no") {
        return Some(Kind::PossiblyNo);
    }
    if is(word, "definitely") {
        return Some(Kind::Definitely);
    }
    if is(word, "definitely-no") {
        return Some(Kind::DefinitelyNo);
    }
    if is(word, "unknown") {
        return Some(Kind::Unknown);
    }
    None
}

impl Kind {
    ghost use Rattle.app_arguments.specs.Conditions.{kind_text};
    ghost use Rattle.app_arguments.specs.ConditionViews.{kind_view};
    ghost use Rattle.std.specs.Prelude.{◌≡◌};

    /// Its word in a list of conditions.
    pub fn word(self) -> &'static str
        ensures { result.now ≡ kind_text (kind_view self) }
    {
        match self {
            Kind::Possibly => "possibly",
            Kind::PossiblyNo => "possibly-no",
            Kind::Definitely => "definitely",
            Kind::DefinitelyNo => "definitely-no",
            Kind::Unknown => "unknown",
        }
    }
}

/// Whether an answer is of this kind.
pub(crate) fn is_of_kind(kind: Kind, answer: &Answer) -> bool
    ensures { result ≡ is_of_kind (kind_view kind) (answer_view answer.now).possibly
        (answer_view answer.now).definitely }
{
    match kind {
        Kind::Possibly => matches!(answer.possibly, Possibly::Yes(_)),
        Kind::PossiblyNo => matches!(answer.possibly, Possibly::No),
        Kind::Definitely => matches!(answer.definitely, Definitely::Yes(_)),
        Kind::DefinitelyNo => matches!(answer.definitely, Definitely::No(_)),
        Kind::Unknown => {
            matches!(answer.possibly, Possibly::Unknown(_))
                || matches!(answer.definitely, Definitely::Unknown(_))
        }
    }
}
