//! How one answer's evidence was found.
ghost use Rattle.judge_check.specs.Views.{verdict_view};
ghost use Rattle.def_format.specs.OtherTexts.{by_test};
ghost use Rattle.def_judgement.specs.Findings.{is_bad};
ghost use Rattle.std.specs.Prelude.{◌≡◌};

/// How one answer's evidence was found.
#[derive(Clone, Copy, Debug)]
pub enum Verdict {
    /// It shows what it is printed for.
    Good,
    /// It doesn't.
    Bad,
    /// The answer has no evidence.
    Unchecked,
}

impl Verdict {
    /// The verdict on what is good or not.
    pub(crate) fn by_test(good: bool) -> Verdict
        ensures { verdict_view result ≡ by_test good }
    {
        if good { Verdict::Good } else { Verdict::Bad }
    }

    /// Whether it is bad.
    pub(crate) fn is_bad(self) -> bool
        ensures { result ≡ is_bad (verdict_view self) }
    {
        match self {
            Verdict::Bad => true,
            Verdict::Good | Verdict::Unchecked => false,
        }
    }
}
