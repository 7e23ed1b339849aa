//! What a search goes by.

use pd_clock::Computation;
use pd_level::Level;
use pd_pred::Pred;
use std::alloc::Global;

/// What a search goes by: the predicate, and the kept level of avoiding cuts down to which it goes.
#[derive(Clone, Copy)]
pub(crate) struct Search<'a, 'b> {
    pub alloc: Global,
    pub computation: &'a Computation<'b>,
    pub pred: &'a Pred,
    pub kept: &'a Level,
}
