//! A comparison that depends on the count of one process alone, as a clause.
ghost use Rattle.walk_tables.specs.Clauses.{clauses_hold};
ghost use Rattle.walk_tables.specs.Rows.{IsLevel};
ghost use Rattle.walk_tables.specs.Tables.{linear_holds};
ghost use Rattle.std.specs.Prelude.{◌≡◌, ℕ, List, IfOk, IfSome, length};

use super::clause_column::ClauseColumn;
use super::clauses::Clauses;
use super::linear::Linear;
use super::row::ClauseRow;
use std::alloc::{AllocError, Global};

/// The clause of a comparison that depends on the last process but one.
fn across_clause(alloc: Global, linear: &Linear) -> Result<Clauses, AllocError>
    requires none { length linear.now.columns.items ≡ 0 }
    requires down { IsLevel linear.now.down }
    ensures { IfOk result (λ clauses. (prefix : List ℕ) (x y : ℕ)
        → clauses_hold clauses prefix x y ≡ linear_holds linear.now prefix x y) }
{
    let rest = linear.constant + linear.down.at(0);
    let row = ClauseRow::of_truths(alloc, linear.comparison, rest, &linear.across)?;
    Ok(Clauses::one(Vec::new(alloc), row, ClauseRow::none(alloc)))
}

/// The clause of a comparison that depends on the last process.
fn down_clause(alloc: Global, linear: &Linear) -> Result<Clauses, AllocError>
    requires none { length linear.now.columns.items ≡ 0 }
    requires across { IsLevel linear.now.across }
    ensures { IfOk result (λ clauses. (prefix : List ℕ) (x y : ℕ)
        → clauses_hold clauses prefix x y ≡ linear_holds linear.now prefix x y) }
{
    let rest = linear.constant + linear.across.at(0);
    let row = ClauseRow::of_truths(alloc, linear.comparison, rest, &linear.down)?;
    Ok(Clauses::one(Vec::new(alloc), ClauseRow::none(alloc), row))
}

/// The clause of a comparison that depends on one of the first processes.
fn column_clause(alloc: Global, linear: &Linear) -> Result<Clauses, AllocError>
    requires one { length linear.now.columns.items ≡ 1 }
    requires across { IsLevel linear.now.across }
    requires down { IsLevel linear.now.down }
    ensures { IfOk result (λ clauses. (prefix : List ℕ) (x y : ℕ)
        → clauses_hold clauses prefix x y ≡ linear_holds linear.now prefix x y) }
{
    let rest = linear.constant + linear.across.at(0) + linear.down.at(0);
    let column = &linear.columns[0];
    let row = ClauseRow::of_truths(alloc, linear.comparison, rest, &column.table)?;
    let mut columns = Vec::with_capacity(alloc, 1)?;
    columns.push(ClauseColumn {
        process: column.process,
        row,
    })?;
    Ok(Clauses::one(columns, ClauseRow::none(alloc), ClauseRow::none(alloc)))
}

/// The comparison as a clause, if it depends on the count of one process alone.
///
/// # Errors
/// An allocation was refused.
pub(crate) fn clause_of(alloc: Global, linear: &Linear) -> Result<Option<Clauses>, AllocError>
    ensures { IfOk result (λ found. IfSome found (λ clauses. (prefix : List ℕ) (x y : ℕ)
        → clauses_hold clauses prefix x y ≡ linear_holds linear.now prefix x y)) }
{
    let columns = linear.columns.len();
    let across = linear.across.is_level();
    let down = linear.down.is_level();
    if columns == 0 && down {
        return Ok(Some(across_clause(alloc, linear)?));
    }
    if columns == 0 && across {
        return Ok(Some(down_clause(alloc, linear)?));
    }
    if columns == 1 && across && down {
        return Ok(Some(column_clause(alloc, linear)?));
    }
    Ok(None)
}
