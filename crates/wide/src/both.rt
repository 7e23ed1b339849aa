//! Both answers for a predicate, as far as they are decided whatever the width.
ghost use Rattle.wide.specs.Found.{FindsDefinitely, FindsFinal, FindsLate, FindsPossibly, IsByHeight, IsPathIfKnown};
ghost use Rattle.pd_pred.specs.Views.{predicate_view};
ghost use Rattle.wide_terms.specs.Passages.{IsPathOfAll};
ghost use Rattle.std.specs.Prelude.{◌↔◌, IfOk, IsTrue, None};

use super::back::{Definite, decided_or_back};
use super::definitely::definitely_decided;
use super::possibly::possibly_decided;
use pd_clock::Computation;
use pd_pred::Pred;
use std::alloc::{AllocError, Global};
use walk_back::{DefinitelyAnswer, PossiblyAnswer};
use wide_terms::path_of_all;

/// The answers for a predicate that are final whatever the levels are.
#[derive(Drop)]
pub struct Decided {
    pub possibly: Option<PossiblyAnswer>,
    pub definitely: Option<DefinitelyAnswer>,
    /// The level of a yes for Definitely where the levels under a width leave it unknown, if there is one.
    pub late: Option<u64>,
    /// Whether Possibly isn't decided so, but sums decide that some consistent cut satisfies. To find the first of
    /// these cuts by height takes more time than this.
    pub by_height: bool,
}

/// A copy of the path where no cut satisfies, which is found if it isn't known, and is known from then on.
fn known_path(
    alloc: Global,
    computation: &Computation<'_>,
    path: &mut Option<Vec<usize>>,
) -> Result<Vec<usize>, AllocError>
    requires { IsPathIfKnown computation.now.events path.old }
    ensures known { IsPathIfKnown computation.now.events path.new }
    ensures copied { IfOk result (λ copy. IsPathOfAll computation.now.events copy.items) }
{
    match path {
        Some(known) => {
            let copy = known.as_slice().to_vec(alloc)?;
            return Ok(copy);
        }
        None => {}
    }
    let found = path_of_all(alloc, computation)?;
    let copy = found.as_slice().to_vec(alloc)?;
    *path = Some(found);
    Ok(copy)
}

/// Definitely's answer, by what is decided of Possibly.
fn definitely_after(
    alloc: Global,
    computation: &Computation<'_>,
    pred: &Pred,
    possibly: &Option<PossiblyAnswer>,
    path: &mut Option<Vec<usize>>,
) -> Result<Option<DefinitelyAnswer>, AllocError>
    requires possibly { FindsPossibly computation.now (predicate_view pred.now) possibly.now }
    requires path { IsPathIfKnown computation.now.events path.old }
    ensures path { IsPathIfKnown computation.now.events path.new }
    ensures definitely { IfOk result (FindsDefinitely computation.now (predicate_view pred.now)) }
{
    let Some(answer) = possibly else {
        return Ok(None);
    };
    match answer {
        PossiblyAnswer::Yes(_) => definitely_decided(alloc, computation, pred),
        PossiblyAnswer::No => {
            let copy = known_path(alloc, computation, path)?;
            Ok(Some(DefinitelyAnswer::No(copy)))
        }
        // no width is given
        PossiblyAnswer::Unknown(_) => Ok(None),
    }
}

/// Both answers for a predicate that are final whatever the levels are; nothing for a question that isn't answered so.
/// What isn't decided of Definitely is searched for back from the full cut, with no more dead ends than the width. The
/// path where no cut satisfies is the same for each predicate of a computation, so it is found once: `path` is that
/// path as soon as it is known. No level is walked.
///
/// # Errors
/// An allocation was refused.
pub fn decide(
    alloc: Global,
    computation: &Computation<'_>,
    pred: &Pred,
    width: u64,
    path: &mut Option<Vec<usize>>,
) -> Result<Decided, AllocError>
    requires { IsPathIfKnown computation.now.events path.old }
    ensures path { IsPathIfKnown computation.now.events path.new }
    ensures possibly { IfOk result (λ decided.
        FindsPossibly computation.now (predicate_view pred.now) decided.possibly) }
    ensures definitely { IfOk result (λ decided.
        FindsFinal computation.now (predicate_view pred.now) width decided.definitely) }
    ensures late { IfOk result (λ decided. FindsFinal computation.now (predicate_view pred.now) width None
        → FindsLate computation.now (predicate_view pred.now) width decided.late) }
    ensures by_height { IfOk result (λ decided.
        IsTrue decided.by_height ↔ IsByHeight computation.now (predicate_view pred.now)) }
{
    let possible = possibly_decided(alloc, computation, pred)?;
    let decided = definitely_after(alloc, computation, pred, &possible.answer, path)?;
    let Definite { answer, late } = decided_or_back(alloc, computation, pred, width, decided)?;
    Ok(Decided {
        possibly: possible.answer,
        definitely: answer,
        late,
        by_height: possible.by_height,
    })
}
