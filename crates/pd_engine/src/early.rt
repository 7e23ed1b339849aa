//! What is decided of each predicate before the walk.
ghost use Rattle.wide.specs.Found.{IsPathIfKnown};
ghost use Rattle.pd_engine.specs.Early.{AreEarly, GoesOn, IsByHeightBeyond, IsDefinitelyOf, IsEarly, IsEarlyDefinitely, IsEarlyLate, IsEarlyPossibly, IsPossiblyOf};
ghost use Rattle.pd_pred.specs.Views.{predicate_view};
ghost use Rattle.pd_spec.specs.Views.{document_view};
ghost use Rattle.std.specs.Prelude.{◌≡◌, ◌<◌, ◌↔◌, IfOk, IsTrue, None, length};

use pd_clock::Computation;
use pd_expand::Crew;
use pd_level::Gate;
use pd_pred::Pred;
use pd_spec::{NamedPred, Spec};
use std::alloc::{AllocError, Global};
use std::sync::Wait;
use std::thread::Threads;
use walk_back::{Answers, DefinitelyAnswer, PossiblyAnswer};
use wide::{Decided, decide};

/// The answers for a predicate that are final whatever the levels are, if the document asks for them. What isn't is
/// left to the walk.
#[derive(Drop)]
pub(crate) struct Early {
    pub(crate) possibly: Option<PossiblyAnswer>,
    pub(crate) definitely: Option<DefinitelyAnswer>,
    /// Whether the first satisfying cut by height is the answer for Possibly, if the walk leaves it unknown.
    pub(crate) by_height: bool,
    /// The level of a yes for Definitely, if the walk leaves it unknown and there is one.
    pub(crate) late: Option<u64>,
    /// The place of the predicate among those that are left to the walk, counted from 0, if an answer is.
    pub(crate) place: usize,
}

/// What is decided of each predicate, in their order, and the predicates that are left to the walk.
#[derive(Drop)]
pub(crate) struct AllEarly<'a> {
    pub(crate) each: Vec<Early>,
    pub(crate) left: Vec<&'a Pred>,
}

/// The answers for a predicate that are final whatever the levels are, if the document asks for them, and none if it
/// doesn't. The path where no cut satisfies is found once, and is known from then on.
fn early_answers(
    alloc: Global,
    spec: &Spec,
    computation: &Computation<'_>,
    pred: &Pred,
    path: &mut Option<Vec<usize>>,
) -> Result<Decided, AllocError>
    requires { IsPathIfKnown computation.now.events path.old }
    ensures path { IsPathIfKnown computation.now.events path.new }
    ensures possibly { IfOk result (λ decided.
        IsEarlyPossibly (document_view spec.now) computation.now (predicate_view pred.now) decided.possibly) }
    ensures definitely { IfOk result (λ decided.
        IsEarlyDefinitely (document_view spec.now) computation.now (predicate_view pred.now) decided.definitely) }
    ensures by_height { IfOk result (λ decided. IsTrue decided.by_height
        ↔ IsByHeightBeyond (document_view spec.now) computation.now (predicate_view pred.now)) }
    ensures late { IfOk result (λ decided.
        IsEarlyLate (document_view spec.now) computation.now (predicate_view pred.now) decided.late) }
{
    if !spec.beyond_width() {
        return Ok(Decided {
            possibly: None,
            definitely: None,
            late: None,
            by_height: false,
        });
    }
    decide(alloc, computation, pred, spec.width(), path)
}

impl Early {
    /// Possibly's answer: the one that is decided, or else that of the walk.
    pub(crate) fn possibly<'b>(&'b self, found: &'b [Answers]) -> &'b PossiblyAnswer
        requires { self.now.possibly ≡ None → self.now.place < length found.now }
        ensures { IsPossiblyOf self.now.possibly self.now.place found.now result.now }
    {
        match &self.possibly {
            Some(answer) => answer,
            None => found[self.place].possibly(),
        }
    }

    /// Definitely's answer, in the same way.
    pub(crate) fn definitely<'b>(&'b self, found: &'b [Answers]) -> &'b DefinitelyAnswer
        requires { self.now.definitely ≡ None → self.now.place < length found.now }
        ensures { IsDefinitelyOf self.now.definitely self.now.place found.now result.now }
    {
        match &self.definitely {
            Some(answer) => answer,
            None => found[self.place].definitely(),
        }
    }
}

/// What is decided of a predicate of the document. It is put after the others that are left to the walk, if an answer
/// is.
fn early_of<'a>(
    alloc: Global,
    spec: &Spec,
    computation: &Computation<'_>,
    asked: &'a NamedPred,
    path: &mut Option<Vec<usize>>,
    left: &mut Vec<&'a Pred>,
) -> Result<Early, AllocError>
    requires { IsPathIfKnown computation.now.events path.old }
    ensures path { IsPathIfKnown computation.now.events path.new }
    ensures early { IfOk result (IsEarly (document_view spec.now) computation.now left.new.items asked.now) }
    ensures more { IfOk result (λ _. GoesOn left.old.items left.new.items) }
{
    let Decided {
        possibly,
        definitely,
        late,
        by_height,
    } = early_answers(alloc, spec, computation, &asked.pred, path)?;
    let place = left.len();
    if possibly.is_none() || definitely.is_none() {
        left.push(&asked.pred)?;
    }
    Ok(Early {
        possibly,
        definitely,
        by_height,
        late,
        place,
    })
}

/// Says at the gate that the predicate at this place, counted from 0, is answered beyond the width, if the document
/// asks for that.
pub(crate) fn announce<S: Threads + Wait + Sync, G: Gate + Sync>(
    crew: &Crew<'_, '_, S, G>,
    spec: &Spec,
    place: usize,
) {
    if spec.beyond_width() {
        let number = (place as u64).saturating_add(1);
        crew.ask(number, spec.predicates().len() as u64);
    }
}

/// What is decided of each of these predicates of the document.
pub(crate) fn all_early<'a, S: Threads + Wait + Sync, G: Gate + Sync>(
    crew: &Crew<'_, '_, S, G>,
    alloc: Global,
    spec: &Spec,
    computation: &Computation<'_>,
    asked: &'a [NamedPred],
) -> Result<AllEarly<'a>, AllocError>
    ensures { IfOk result (λ early. AreEarly (document_view spec.now) computation.now asked.now early.left.items
        early.each.items) }
{
    let mut each = Vec::with_capacity(alloc, asked.len())?;
    let mut left = Vec::new(alloc);
    let mut path = None;
    for i in 0..asked.len() {
        announce(crew, spec, i);
        each.push(early_of(alloc, spec, computation, &asked[i], &mut path, &mut left)?)?;
    }
    Ok(AllEarly { each, left })
}
