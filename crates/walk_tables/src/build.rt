//! A comparison of two sums as tables.
ghost use Rattle.def_format.specs.Limits.{predicate_byte_limit};
ghost use Rattle.def_model.specs.Cuts.{FitsProcesses};
ghost use Rattle.walk_keys.specs.Neighbors.{cut_at};
ghost use Rattle.pd_pred.specs.Trees.{comparison_view, terms_view};
ghost use Rattle.walk_tables.specs.Tables.{HaveParts, IsTableOf, compares_at, linear_holds};
ghost use Rattle.std.specs.Prelude.{◌≡◌, ℕ, ◌-◌, ◌<◌, ◌≤◌, IfOk, IfSome, List, length, vec_len};

use super::linear::{Column, Linear};
use super::parts::{constant_of, row_of, speak_below};
use super::table::Table;
use pd_clock::Computation;
use pd_pred::{Comparison, SignedTerm};
use std::alloc::{AllocError, Global};

/// The table of what the process adds to the difference of two sums, if there is room for it.
fn table_of(
    alloc: Global,
    computation: &Computation<'_>,
    process: usize,
    left: &[SignedTerm],
    right: &[SignedTerm],
    room: &mut usize,
) -> Result<Option<Table>, AllocError>
    requires { process < length computation.now.events }
    ensures { IfOk result (λ found. IfSome found (λ table.
        IsTableOf computation.now (terms_view left.now) (terms_view right.now) process table)) }
{
    match row_of(alloc, computation, process, left, right, room)? {
        Some(row) => Ok(Some(Table::new(row))),
        None => Ok(None),
    }
}

/// The columns of the first `processes` processes, as far as the sums speak of them, if there is room for them.
fn columns_of(
    alloc: Global,
    computation: &Computation<'_>,
    processes: usize,
    left: &[SignedTerm],
    right: &[SignedTerm],
    room: &mut usize,
) -> Result<Option<Vec<Column>>, AllocError>
    requires { processes ≤ length computation.now.events }
    ensures few { IfOk result (λ found. IfSome found (λ columns. vec_len columns ≤ processes)) }
    ensures parts { IfOk result (λ found. IfSome found (λ columns.
        HaveParts computation.now (terms_view left.now) (terms_view right.now) processes columns.items)) }
{
    let mut columns = Vec::new(alloc);
    for process in 0..processes {
        let row = match row_of(alloc, computation, process, left, right, room)? {
            Some(row) => row,
            None => return Ok(None),
        };
        if !row.is_empty() {
            let table = Table::new(row);
            columns.push(Column { process, table })?;
        }
    }
    Ok(Some(columns))
}

/// The comparison of two sums by tables, if there is room for them and no sum gets too large. What it takes of the room
/// is taken off it.
pub(crate) fn linear_of(
    alloc: Global,
    computation: &Computation<'_>,
    left: &[SignedTerm],
    comparison: Comparison,
    right: &[SignedTerm],
    room: &mut usize,
) -> Result<Option<Linear>, AllocError>
    requires some { 2 ≤ length computation.now.events }
    requires left { length left.now ≤ predicate_byte_limit }
    requires right { length right.now ≤ predicate_byte_limit }
    ensures { IfOk result (λ found. IfSome found (λ linear. (prefix : List ℕ) (x y : ℕ)
        → FitsProcesses computation.now.events (cut_at prefix x y) → linear_holds linear prefix x y
        ≡ compares_at computation.now (terms_view left.now) (comparison_view comparison) (terms_view right.now)
        (cut_at prefix x y))) }
{
    computation.limits();
    let processes = computation.processes();
    if !speak_below(left, processes) || !speak_below(right, processes) {
        return Ok(None);
    }
    let constant = match constant_of(left, right) {
        Some(constant) => constant,
        None => return Ok(None),
    };
    let mut rest = *room;
    let columns = match columns_of(alloc, computation, processes - 2, left, right, &mut rest)? {
        Some(columns) => columns,
        None => return Ok(None),
    };
    let across = match table_of(alloc, computation, processes - 2, left, right, &mut rest)? {
        Some(table) => table,
        None => return Ok(None),
    };
    let down = match table_of(alloc, computation, processes - 1, left, right, &mut rest)? {
        Some(table) => table,
        None => return Ok(None),
    };
    *room = rest;
    Ok(Some(Linear {
        comparison,
        constant,
        columns,
        across,
        down,
    }))
}
