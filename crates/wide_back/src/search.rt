//! What a search goes by.
ghost use Rattle.pd_pred.specs.Views.{predicate_view};
ghost use Rattle.wide_back.specs.Names.{AreNames};
ghost use Rattle.std.specs.Prelude.{length};

use pd_clock::Computation;
use pd_pred::Pred;
use std::alloc::Global;

/// What a search goes by: the predicate, and which processes it names.
#[derive(Clone, Copy)]
pub(crate) struct Search<'a, 'b> {
    pub alloc: Global,
    pub computation: &'a Computation<'b>,
    pub pred: &'a Pred,
    pub names: &'a [bool],
    ghost right: { AreNames (predicate_view pred.now) (length computation.now.events) names.now },
}
