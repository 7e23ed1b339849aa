//! What a check of a report finds.
ghost use Rattle.judge_check.specs.Views.{finding_view};
ghost use Rattle.def_judgement.specs.Findings.{has_bad, is_clean};
ghost use Rattle.std.specs.Prelude.{◌≡◌};

use super::checked::Checked;

/// What a check of a report finds.
#[derive(Debug, Drop)]
pub enum Finding {
    /// The report isn't read, from this line on, which is counted from 1.
    NotRead(u64),
    /// The session is refused or the report is a refusal, and whether the report is right.
    OfRefusal(bool),
    /// The session is well formed and the report has answers: whether the counts are right, and the verdicts on the
    /// answers, unless their names are wrong.
    OfSession(bool, Option<Vec<Checked>>),
}

impl Finding {
    /// Whether nothing that was found is bad.
    pub fn is_clean(&self) -> bool
        ensures { result ≡ is_clean (finding_view self.now) }
    {
        match self {
            Finding::NotRead(_) => false,
            Finding::OfRefusal(good) => *good,
            Finding::OfSession(good, answers) => match answers {
                Some(answers) => *good && !answers.iter().any(|checked| checked.has_bad()),
                None => false,
            },
        }
    }
}
