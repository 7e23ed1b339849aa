//! The pairs of avoiding cuts.
ghost use Rattle.wide_pairs.specs.Avoiding.{IsAvoidingPair, test_of_pairs};
ghost use Rattle.wide_pairs.specs.Grids.{AreRows};
ghost use Rattle.wide_pairs.specs.LeastCuts.{ArePasts};
ghost use Rattle.def_model.specs.Events.{Computation as Events, event_count};
ghost use Rattle.std.specs.Prelude.{◌≡◌, ◌+◌, ◌<◌, ◌↔◌, ℕ, Bool, IfOk, List, length, true};

use super::band::end_of;
use super::good_pairs::GoodPairs;
use super::grid_row::{Row, next_row, no_row};
use pd_clock::Computation;
use std::alloc::{AllocError, Global};

/// An empty row, and then the row of each count of process `p`, which has the counts of process `q` that make the pair
/// of an avoiding cut with it. For each count of `p` and of `q` there is how many events of the other are in its past.
///
/// # Errors
/// An allocation was refused.
pub(crate) fn rows_of<G: GoodPairs>(
    alloc: Global,
    computation: &Computation<'_>,
    p: usize,
    q: usize,
    wanted: &G,
    lows: &[u64],
    backs: &[u64],
) -> Result<Vec<Row>, AllocError>
    requires order { p < q }
    requires there { q < length computation.now.events }
    requires lows { ArePasts computation.now.events p q lows.now }
    requires backs { ArePasts computation.now.events q p backs.now }
    ensures { IfOk result (λ rows. AreRows computation.now.events (test_of_pairs (G.good wanted.now) p q) p q
        (event_count computation.now.events p + 1) rows.items) }
{
    computation.limits();
    let mut rows = Vec::with_capacity(alloc, lows.len() + 1)?;
    rows.push(no_row(alloc))?;
    let mut end = 0;
    for i in 0..lows.len() {
        end = end_of(backs, i as u64, end);
        let row = next_row(
            alloc,
            wanted,
            i as u64,
            lows[i],
            end as u64,
            &rows[i],
            i == 0,
        )?;
        rows.push(row)?;
    }
    Ok(rows)
}

/// Whether `i` and `j` are the counts of the two processes in an avoiding cut.
pub(crate) fn is_avoiding(rows: &[Row], i: u64, j: u64) -> bool
    requires { i + 1 < length rows.now }
    ensures { (c : Events) (test : List ℕ → Bool) (p q n : ℕ) → AreRows c test p q n rows.now
        → (result ≡ true) ↔ IsAvoidingPair c test p q i j }
{
    rows[i as usize + 1].has(j)
}
