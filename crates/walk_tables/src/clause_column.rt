//! The clauses that the first processes make true, process by process.
ghost use Rattle.walk_tables.specs.Rows.{columns_have, moved};
ghost use Rattle.std.specs.Prelude.{◌≡◌, ℕ, ◌<◌, ◌∷◌, ◌||◌, IfOk, List};

use super::row::ClauseRow;
use std::alloc::{AllocError, Global};

/// What one of the first processes makes true.
#[derive(Drop)]
pub(crate) struct ClauseColumn {
    pub(crate) process: usize,
    pub(crate) row: ClauseRow,
}

/// The columns with a further one: of one process there is only one.
fn placed(
    alloc: Global,
    columns: Vec<ClauseColumn>,
    column: ClauseColumn,
) -> Result<Vec<ClauseColumn>, AllocError>
    ensures { IfOk result (λ all. (counts : List ℕ) (j : ℕ) → columns_have all.items counts j
        ≡ columns_have (column ∷ columns.items) counts j) }
{
    let mut all = Vec::with_capacity(alloc, columns.len() + 1)?;
    let mut rest = columns;
    let mut held = column;
    while let Some(other) = rest.pop() {
        if other.process == held.process {
            held.row = held.row.either(other.row);
        } else {
            all.push(other)?;
        }
    }
    all.push(held)?;
    Ok(all)
}

/// The columns, and those of further clauses moved up.
pub(crate) fn columns_with(
    alloc: Global,
    columns: Vec<ClauseColumn>,
    further: Vec<ClauseColumn>,
    by: u64,
) -> Result<Vec<ClauseColumn>, AllocError>
    requires { by < 64 }
    ensures { IfOk result (λ all. (counts : List ℕ) (j : ℕ) → j < 64 → columns_have all.items counts j
        ≡ (columns_have columns.items counts j || moved by (columns_have further.items counts) j)) }
{
    let mut all = columns;
    let mut rest = further;
    while let Some(column) = rest.pop() {
        let row = column.row.moved_up(by);
        let process = column.process;
        all = placed(alloc, all, ClauseColumn { process, row })?;
    }
    Ok(all)
}
