//! Whether a run passes.

/// Whether a run passes.
#[derive(Clone, Copy)]
pub enum Verdict {
    /// All is as wished.
    Pass,
    /// An answer isn't.
    Fail,
    /// There are no answers.
    NotJudged,
}

impl Verdict {
    ghost use Rattle.judge_runs.specs.Runs as runs;
    ghost use Rattle.judge_runs.specs.Views.{verdict_view};
    ghost use Rattle.std.specs.Prelude.{◌≡◌};

    /// Whether it is that all is as wished.
    pub fn is_pass(self) -> bool
        ensures { result ≡ runs.is_same runs.Pass (verdict_view self) }
    {
        match self {
            Verdict::Pass => true,
            Verdict::Fail | Verdict::NotJudged => false,
        }
    }
}
