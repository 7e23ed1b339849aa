//! What the whole walk goes by.
ghost use Rattle.def_model.specs.Cuts.{total};
ghost use Rattle.std.specs.Prelude.{◌*◌, ◌<◌, ◌≤◌, length};

use pd_clock::Computation;
use pd_expand::Crew;
use std::alloc::Global;

/// What a walk up the whole levels goes by: the workers, the computation of two processes or more, the width, and from
/// how many levels on after the one kept last the next one is kept.
#[derive(Drop)]
pub(crate) struct Setting<'a, 'b, 'c, 'd, T, G> {
    pub crew: &'a Crew<'b, 'c, T, G>,
    pub alloc: Global,
    pub computation: &'a Computation<'d>,
    pub width: u64,
    pub gap: u64,
    ghost two: { 2 ≤ length computation.now.events },
    ghost small: { total computation.now.events < 18446744073709551615 },
    ghost narrow: { width < 18446744073709551615 },
    ghost root: { total computation.now.events < gap * gap },
}
