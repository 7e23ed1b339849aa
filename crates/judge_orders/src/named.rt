//! The variables that a document's predicates name.
ghost use Rattle.def_format.specs.Documents.{NamedPredicate};
ghost use Rattle.def_orders.specs.Orders.{IsOver, SumIsOver, TermIsOver};
ghost use Rattle.judge_orders.specs.Growth.{AddsNoOther, Grows, SeeNoOther};
ghost use Rattle.judge_orders.specs.Lists.{lists_view};
ghost use Rattle.pd_pred.specs.Trees.{sum_view, term_view, tree_view};
ghost use Rattle.pd_spec.specs.Named.{named_view};
ghost use Rattle.std.specs.Prelude.{◌≡◌, ◌<◌, ◌⊎◌, ℕ, [], List, All, Contains, IfOk, length, map, slice_index_or};

use pd_pred::{Sum, Term, Tree};
use pd_spec::NamedPred;
use std::alloc::{AllocError, Global};

/// Adds a variable, unless it is there already.
fn push_new(vars: &mut Vec<usize>, var: usize) -> Result<(), AllocError>
    ensures stay { IfOk result (λ _. (v : ℕ) → Contains vars.old.items v → Contains vars.new.items v) }
    ensures there { IfOk result (λ _. Contains vars.new.items var) }
    ensures just { IfOk result (λ _. (v : ℕ) → Contains vars.new.items v → Contains vars.old.items v ⊎ (var ≡ v)) }
{
    if !vars.contains(&var) {
        vars.push(var)?;
    }
    Ok(())
}

/// Adds a variable of a process, unless it is there already. A process that has no list is passed over.
fn name_var(named: &mut Vec<Vec<usize>>, process: usize, var: usize) -> Result<(), AllocError>
    ensures grows { IfOk result (λ _. Grows (lists_view named.old.items) (lists_view named.new.items)) }
    ensures there { IfOk result (λ _. process < length (lists_view named.new.items)
        → Contains (slice_index_or (lists_view named.new.items) process []) var) }
    ensures just { IfOk result (λ _. AddsNoOther (lists_view named.old.items) (lists_view named.new.items)
        (λ (lists : List (List ℕ)). process < length lists → Contains (slice_index_or lists process []) var)) }
{
    if process < named.len() {
        push_new(&mut named[process], var)?;
    }
    Ok(())
}

/// Adds the variable that a term names, if it names one.
fn name_term(named: &mut Vec<Vec<usize>>, term: Term) -> Result<(), AllocError>
    ensures grows { IfOk result (λ _. Grows (lists_view named.old.items) (lists_view named.new.items)) }
    ensures over { IfOk result (λ _. TermIsOver (lists_view named.new.items) (term_view term)) }
    ensures just { IfOk result (λ _. AddsNoOther (lists_view named.old.items) (lists_view named.new.items)
        (λ (lists : List (List ℕ)). TermIsOver lists (term_view term))) }
{
    match term {
        Term::Number(_) => Ok(()),
        Term::Variable { process, var } => name_var(named, process, var),
        Term::Times { process, var, .. } => name_var(named, process, var),
    }
}

/// Adds the variables that a sum names.
fn name_sum(named: &mut Vec<Vec<usize>>, sum: &Sum) -> Result<(), AllocError>
    ensures grows { IfOk result (λ _. Grows (lists_view named.old.items) (lists_view named.new.items)) }
    ensures over { IfOk result (λ _. SumIsOver (lists_view named.new.items) (sum_view sum.now)) }
    ensures just { IfOk result (λ _. AddsNoOther (lists_view named.old.items) (lists_view named.new.items)
        (λ (lists : List (List ℕ)). SumIsOver lists (sum_view sum.now))) }
{
    for signed in &sum.terms {
        name_term(named, signed.term)?;
    }
    Ok(())
}

/// Adds the variables that a predicate names.
fn name_tree(named: &mut Vec<Vec<usize>>, tree: &Tree) -> Result<(), AllocError>
    ensures grows { IfOk result (λ _. Grows (lists_view named.old.items) (lists_view named.new.items)) }
    ensures over { IfOk result (λ _. IsOver (lists_view named.new.items) (tree_view tree.now)) }
    ensures just { IfOk result (λ _. AddsNoOther (lists_view named.old.items) (lists_view named.new.items)
        (λ (lists : List (List ℕ)). IsOver lists (tree_view tree.now))) }
{
    match tree {
        Tree::Always => Ok(()),
        Tree::Never => Ok(()),
        Tree::Compare { left, right, .. } => {
            name_sum(named, left)?;
            name_sum(named, right)?;
            Ok(())
        }
        Tree::Not(inner) => name_tree(named, inner),
        Tree::And(left, right) => {
            name_tree(named, left)?;
            name_tree(named, right)?;
            Ok(())
        }
        Tree::Or(left, right) => {
            name_tree(named, left)?;
            name_tree(named, right)?;
            Ok(())
        }
    }
}

/// A list of no variable for each process.
fn no_vars(alloc: Global, processes: usize) -> Result<Vec<Vec<usize>>, AllocError>
    ensures one_each { IfOk result (λ named. length named.items ≡ processes) }
    ensures none { IfOk result (λ named. (lists : List (List ℕ)) → length lists ≡ processes
        → Grows (lists_view named.items) lists) }
{
    let mut named = Vec::with_capacity(alloc, processes)?;
    for _process in 0..processes {
        named.push(Vec::new(alloc))?;
    }
    Ok(named)
}

/// For each process the variables that these predicates name, each once, in the order in which they are named first.
///
/// It compares the variable of each term with those of its process that are there.
///
/// # Errors
/// An allocation was refused.
pub fn named_vars(
    alloc: Global,
    processes: usize,
    predicates: &[NamedPred],
) -> Result<Vec<Vec<usize>>, AllocError>
    ensures one_each { IfOk result (λ named. length named.items ≡ processes) }
    ensures over { IfOk result (λ named. All (λ (asked : NamedPredicate). IsOver (lists_view named.items)
        asked.predicate) (map named_view predicates.now)) }
    ensures just { IfOk result (λ named. SeeNoOther (lists_view named.items) processes
        (map named_view predicates.now)) }
{
    let mut named = no_vars(alloc, processes)?;
    for predicate in predicates {
        name_tree(&mut named, predicate.pred.tree())?;
    }
    Ok(named)
}
