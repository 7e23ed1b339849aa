//! The way down to a dead end.
ghost use Rattle.wide_back.specs.Goals.{predicate_of, recorded_of};
ghost use Rattle.wide_back.specs.Searches.{IsAt};
ghost use Rattle.std.specs.Prelude.{IfOk, length};

use super::dead::DeadEnds;
use super::search::Search;
use super::steps::next_step;
use pd_clock::Cut;
use std::alloc::AllocError;

/// Takes steps, each of the least process that one can be taken of, as long as there is one. At the first cut no
/// process below `from` is looked at.
pub(crate) fn descend(
    search: &Search<'_, '_>,
    dead: &DeadEnds,
    from: usize,
    cut: &mut Cut,
    undone: &mut Vec<usize>,
) -> Result<(), AllocError>
    requires { IsAt (recorded_of search.now) (predicate_of search.now) dead.now undone.old.items cut.old from }
    ensures { IfOk result (λ _. IsAt (recorded_of search.now) (predicate_of search.now) dead.now
        undone.new.items cut.new (length cut.new)) }
{
    let mut from = from;
    while let Some(p) = next_step(search, dead, cut, from) {
        undone.push(p)?;
        cut.undo(p);
        from = 0;
    }
    Ok(())
}
