//! How many levels were held at once.
ghost use Rattle.std.specs.Prelude.{◌≡◌};

/// How many levels were held at once for a predicate, at most. Only a `Holder` gives one.
#[derive(Clone, Copy, Drop)]
pub struct Count {
    most: u64,
}

impl Count {
    /// The count that a holder has come to.
    pub(crate) fn of(most: u64) -> Count
        ensures { result.most ≡ most }
    {
        Count { most }
    }

    /// The number.
    pub fn number(self) -> u64
        ensures { result ≡ self.most }
    {
        self.most
    }
}
