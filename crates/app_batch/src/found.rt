//! What is found in the answers so far.
use judge_runs::Conclusion;

/// Whether one of the answers so far has status 5, and whether one has status 1.
#[derive(Clone, Copy)]
pub(crate) struct Found {
    pub(crate) alarm: bool,
    pub(crate) refusal: bool,
}

impl Found {
    ghost use Rattle.app_batch.specs.Answers.{Answer};
    ghost use Rattle.app_batch.specs.Batches.{due_of_answers};
    ghost use Rattle.app_test.specs.Tests.{ending_of};
    ghost use Rattle.judge_runs.specs.Views.{conclusion_view};
    ghost use Rattle.app_batch.specs.Rounds.{IsFoundIn};
    ghost use Rattle.std.specs.Prelude.{◌≡◌, ◌++◌, ◌∷◌, [], List};

    /// In no answer.
    pub(crate) fn nothing() -> Found
        ensures { IsFoundIn [] result }
    {
        Found {
            alarm: false,
            refusal: false,
        }
    }

    /// What is found with an answer of this status too.
    pub(crate) fn with(self, status: u8) -> Found
        ensures { (answers : List Answer) (answer : Answer) → answer.status ≡ status → IsFoundIn answers self
            → IsFoundIn (answers ++ answer ∷ []) result }
    {
        Found {
            alarm: self.alarm || status == 5,
            refusal: self.refusal || status == 1,
        }
    }

    /// What the answers come to together.
    pub(crate) fn conclusion(self) -> Conclusion
        ensures { (answers : List Answer) → IsFoundIn answers self
            → ending_of (conclusion_view result) ≡ due_of_answers answers }
    {
        if self.alarm {
            return Conclusion::SomeFails;
        }
        if self.refusal {
            return Conclusion::SomeNotJudged;
        }
        Conclusion::AllPass
    }
}
