//! The path of an observation where no cut satisfies.
ghost use Rattle.wide_terms.specs.Passages.{IsPathOfAll};
ghost use Rattle.std.specs.Prelude.{IfOk};

use pd_clock::Computation;
use std::alloc::{AllocError, Global};
use wide_conjunctions::{GoodCounts, Passage, definitely_all_good};

/// No count of any process.
struct NoCount;

impl GoodCounts for NoCount {
    ghost use Rattle.std.specs.Prelude.{false};

    ghost good = { λ _ _ _. false };

    fn is_good(&self, _process: usize, _count: u64) -> bool {
        false
    }
}

/// The path that is printed of an observation where no consistent cut satisfies: each avoids, whatever the predicate.
///
/// # Errors
/// An allocation was refused.
pub fn path_of_all(alloc: Global, computation: &Computation<'_>) -> Result<Vec<usize>, AllocError>
    ensures { IfOk result (λ path. IsPathOfAll computation.now.events path.items) }
{
    computation.limits();
    let passage = definitely_all_good(alloc, computation, &NoCount)?;
    match passage {
        Passage::Avoided(path) => Ok(path),
        // some cut would satisfy
        Passage::Passed(_) => Ok(Vec::new(alloc)),
    }
}
