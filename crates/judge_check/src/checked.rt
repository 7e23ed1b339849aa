//! The verdicts on the answers for one predicate.
ghost use Rattle.judge_check.specs.Views.{checked_view};
ghost use Rattle.def_judgement.specs.Findings.{has_bad};
ghost use Rattle.std.specs.Prelude.{◌≡◌};

use super::verdict::Verdict;

/// The verdicts on the answers for one predicate.
#[derive(Debug, Drop)]
pub struct Checked {
    /// The predicate's name.
    pub name: String,
    /// On the cut, if one is printed.
    pub possibly: Verdict,
    /// On the path, if one is printed.
    pub definitely: Verdict,
}

impl Checked {
    /// Whether one of the verdicts is bad.
    pub fn has_bad(&self) -> bool
        ensures { result ≡ has_bad (checked_view self.now) }
    {
        self.possibly.is_bad() || self.definitely.is_bad()
    }
}
