//! The dead ends that a search has come to.
ghost use Rattle.def_wide.specs.DeadEnds.{AreApart};
ghost use Rattle.wide_back.specs.Searches.{IsAdded};
ghost use Rattle.std.specs.Prelude.{◌≡◌, ◌+◌, ◌↔◌, [], Contains, IfOk, IsTrue, length};

use std::alloc::{AllocError, Global};
use std::collections::BTreeSet;
use std::marker::Model;

/// What the predicate sees of cuts from which a search found no way on, each once.
#[derive(Drop)]
pub(crate) struct DeadEnds {
    seen: BTreeSet<Vec<u64>>,
}

impl Model for DeadEnds {
    ghost use Rattle.wide_back.specs.Lists.{items_of};
    ghost use Rattle.std.specs.Prelude.{ℕ, List};

    ghost Value = { List (List ℕ) };

    ghost view = { λ d. items_of d.seen.keys };
}

impl DeadEnds {
    /// None yet.
    pub(crate) fn new(alloc: Global) -> DeadEnds
        ensures { result ≡ [] }
    {
        DeadEnds {
            seen: BTreeSet::new(alloc),
        }
    }

    /// How many there are. No two are the same.
    pub(crate) fn len(&self) -> usize
        ensures count { result ≡ length self.now }
        ensures apart { AreApart self.now }
    {
        self.seen.len()
    }

    /// Whether this is seen of one of them.
    pub(crate) fn has(&self, counts: &[u64]) -> bool
        ensures { IsTrue result ↔ Contains self.now counts.now }
    {
        self.seen.contains(counts)
    }

    /// Adds one of which this is seen.
    ///
    /// # Errors
    /// An allocation was refused.
    pub(crate) fn add(&mut self, alloc: Global, counts: &[u64]) -> Result<(), AllocError>
        requires { ¬ Contains self.old counts.now }
        ensures added { IfOk result (λ _. IsAdded self.old counts.now self.new) }
        ensures count { IfOk result (λ _. length self.new ≡ length self.old + 1) }
    {
        self.seen.insert(Vec::from_slice(alloc, counts)?)?;
        Ok(())
    }
}
