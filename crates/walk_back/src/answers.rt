//! Both answers for a predicate.
ghost use Rattle.std.specs.Prelude.{◌≡◌};

use super::count::Count;
use super::{DefinitelyAnswer, PossiblyAnswer, Split};

/// Both answers for a predicate, with the count of the levels that were held for it. `Split::answered` alone makes
/// them.
#[derive(Drop)]
pub struct Answers {
    possibly: PossiblyAnswer,
    definitely: DefinitelyAnswer,
    held: Count,
}

impl Split {
    /// Both answers. The split's holder is used up, and the count is the one that it has come to.
    pub fn answered(self, definitely: DefinitelyAnswer) -> Answers
        ensures possibly { result.possibly ≡ self.possibly }
        ensures definitely { result.definitely ≡ definitely }
        ensures held { result.held.most ≡ self.held.most }
    {
        Answers {
            possibly: self.possibly,
            definitely,
            held: self.held.count(),
        }
    }
}

impl Answers {
    /// Whether some consistent cut satisfies.
    pub fn possibly(&self) -> &PossiblyAnswer
        ensures { result.now ≡ self.now.possibly }
    {
        &self.possibly
    }

    /// Whether every observation passes through a cut that does.
    pub fn definitely(&self) -> &DefinitelyAnswer
        ensures { result.now ≡ self.now.definitely }
    {
        &self.definitely
    }

    /// How many levels were held at once for the predicate, at most: whole levels, and lists of cuts.
    pub fn held(&self) -> Count
        ensures { result ≡ self.now.held }
    {
        self.held
    }

    /// The answer for Possibly alone.
    pub fn into_possibly(self) -> PossiblyAnswer
        ensures { result ≡ self.possibly }
    {
        self.possibly
    }

    /// The answer for Definitely, and how many levels were held.
    pub fn into_definitely(self) -> (DefinitelyAnswer, Count)
        ensures answer { result.0 ≡ self.definitely }
        ensures held { result.1 ≡ self.held }
    {
        (self.definitely, self.held)
    }
}
