//! What the answers for one predicate by lists go by.
ghost use Rattle.def_model.specs.Cuts.{total};
ghost use Rattle.std.specs.Prelude.{◌*◌, ◌<◌};

use pd_clock::Computation;
use pd_expand::Crew;
use pd_pred::Pred;
use std::alloc::Global;

/// A predicate over a computation, the width, and from how many levels on after the one kept last the next one is kept:
/// the square of that number is above the number of events.
#[derive(Drop)]
pub struct Question<'a, 'b, 'c, 'd, 'e, T, G> {
    pub crew: &'a Crew<'b, 'c, T, G>,
    pub alloc: Global,
    pub computation: &'a Computation<'d>,
    pub pred: &'e Pred,
    pub width: u64,
    pub gap: u64,
    pub ghost root: { total computation.now.events < gap * gap },
}
