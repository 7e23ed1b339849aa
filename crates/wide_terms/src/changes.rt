//! Which events change what is true of a comparison.
ghost use Rattle.def_model.specs.Events.{event_count};
ghost use Rattle.pd_pred.specs.Trees.{sum_view, term_view};
ghost use Rattle.wide_terms.specs.Changes.{VariableStays, vars_of, vars_of_term};
ghost use Rattle.std.specs.Prelude.{◌≡◌, ◌+◌, ◌<◌, ◌≤◌, ◌++◌, ℕ, All, IfOk, false, length};

use pd_clock::Computation;
use pd_pred::{Sum, Term};
use std::alloc::{AllocError, Global};

/// Adds the variable that a term names, if it names one.
fn push_var(term: Term, vars: &mut Vec<usize>) -> Result<(), AllocError>
    ensures { IfOk result (λ _. vars.new.items ≡ vars.old.items ++ vars_of_term (term_view term)) }
{
    match term {
        Term::Number(_) => Ok(()),
        Term::Variable { var, .. } => {
            vars.push(var)?;
            Ok(())
        }
        Term::Times { var, .. } => {
            vars.push(var)?;
            Ok(())
        }
    }
}

/// Adds the variables that a sum names.
fn push_vars(sum: &Sum, vars: &mut Vec<usize>) -> Result<(), AllocError>
    ensures { IfOk result (λ _. vars.new.items ≡ vars.old.items ++ vars_of (sum_view sum.now)) }
{
    for signed in &sum.terms {
        push_var(signed.term, vars)?;
    }
    Ok(())
}

/// The variables that two sums name, of whatever process.
///
/// # Errors
/// An allocation was refused.
pub(crate) fn named_vars(alloc: Global, left: &Sum, right: &Sum) -> Result<Vec<usize>, AllocError>
    ensures { IfOk result (λ vars. vars.items ≡ vars_of (sum_view left.now) ++ vars_of (sum_view right.now)) }
{
    let mut vars = Vec::new(alloc);
    push_vars(left, &mut vars)?;
    push_vars(right, &mut vars)?;
    Ok(vars)
}

/// Whether a variable of a process has another value at one count than at another.
#[inline(always)]
fn has_changed(
    computation: &Computation<'_>,
    process: usize,
    from: u64,
    count: u64,
    var: usize,
) -> bool
    requires within { process < length computation.now.events }
    requires first { from ≤ event_count computation.now.events process }
    requires second { count ≤ event_count computation.now.events process }
    ensures { result ≡ false → VariableStays computation.now process from count var }
{
    computation.value(process, from, var) != computation.value(process, count, var)
}

/// Whether one of these variables of a process has another value at one count than at another.
#[inline(always)]
fn has_any_changed(
    computation: &Computation<'_>,
    vars: &[usize],
    process: usize,
    from: u64,
    count: u64,
) -> bool
    requires within { process < length computation.now.events }
    requires first { from ≤ event_count computation.now.events process }
    requires second { count ≤ event_count computation.now.events process }
    ensures { result ≡ false → All (VariableStays computation.now process from count) vars.now }
{
    for &var in vars {
        if has_changed(computation, process, from, count, var) {
            return true;
        }
    }
    false
}

/// The first count after this one at which a variable of a process has another value, or the end.
fn next_change_of(
    computation: &Computation<'_>,
    var: usize,
    process: usize,
    from: u64,
    end: u64,
) -> u64
    requires within { process < length computation.now.events }
    requires some { from < end }
    requires there { end ≤ event_count computation.now.events process + 1 }
    ensures after { from < result }
    ensures within { result ≤ end }
    ensures stay { (n : ℕ) → from < n → n < result → VariableStays computation.now process from n var }
{
    let value = computation.value(process, from, var);
    for count in from + 1..end {
        if computation.value(process, count, var) != value {
            return count;
        }
    }
    end
}

/// The first count after this one at which one of these variables of a process has another value, or the end.
pub(crate) fn next_change(
    computation: &Computation<'_>,
    vars: &[usize],
    process: usize,
    from: u64,
    end: u64,
) -> u64
    requires within { process < length computation.now.events }
    requires some { from < end }
    requires there { end ≤ event_count computation.now.events process + 1 }
    ensures after { from < result }
    ensures within { result ≤ end }
    ensures stay { (n : ℕ) → from < n → n < result → All (VariableStays computation.now process from n) vars.now }
{
    if vars.len() == 1 {
        return next_change_of(computation, vars[0], process, from, end);
    }
    for count in from + 1..end {
        if has_any_changed(computation, vars, process, from, count) {
            return count;
        }
    }
    end
}
