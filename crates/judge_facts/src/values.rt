//! What the variables that a predicate names are worth.
ghost use Rattle.judge_facts.specs.Values.{named_values};
ghost use Rattle.pd_pred.specs.Trees.{tree_view};
ghost use Rattle.std.specs.Prelude.{◌≡◌, IfOk};

use super::named::names_variable;
use pd_pred::{Tree, Values};
use std::alloc::{AllocError, Global};

/// The first `count` variables of process `process`, without those that a predicate doesn't name, and what each is
/// worth.
///
/// # Errors
/// Out of memory.
pub fn named_values<V: Values>(
    alloc: Global,
    tree: &Tree,
    values: &V,
    process: usize,
    count: usize,
) -> Result<Vec<(usize, i64)>, AllocError>
    ensures { IfOk result (λ found. found.items
        ≡ named_values (tree_view tree.now) (V.state values.now) process count) }
{
    let mut found = Vec::new(alloc);
    for var in 0..count {
        if names_variable(tree, process, var) {
            found.push((var, values.value(process, var)))?;
        }
    }
    Ok(found)
}
