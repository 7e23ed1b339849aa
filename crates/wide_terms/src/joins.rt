//! How terms are joined, by the numbers of their comparisons.
ghost use Rattle.wide_terms.specs.Rows.{numbers_view, products};
ghost use Rattle.std.specs.Prelude.{◌≡◌, ◌∷◌, [], ◌++◌, cond, IfOk, map};

use std::alloc::{AllocError, Global};

/// The terms of a constant: one that always holds, or none.
///
/// # Errors
/// An allocation was refused.
pub fn constant(alloc: Global, truth: bool) -> Result<Vec<Vec<usize>>, AllocError>
    ensures { IfOk result (λ terms. numbers_view terms.items ≡ cond truth ([] ∷ []) []) }
{
    let mut terms = Vec::new(alloc);
    if truth {
        terms.push(Vec::new(alloc))?;
    }
    Ok(terms)
}

/// The one term of a comparison, by its number.
///
/// # Errors
/// An allocation was refused.
pub fn single(alloc: Global, number: usize) -> Result<Vec<Vec<usize>>, AllocError>
    ensures { IfOk result (λ terms. numbers_view terms.items ≡ (number ∷ []) ∷ []) }
{
    let mut term = Vec::new(alloc);
    term.push(number)?;
    let mut terms = Vec::new(alloc);
    terms.push(term)?;
    Ok(terms)
}

/// The comparisons of two terms together.
fn both(alloc: Global, first: &[usize], second: &[usize]) -> Result<Vec<usize>, AllocError>
    ensures { IfOk result (λ term. term.items ≡ first.now ++ second.now) }
{
    let mut term = Vec::with_capacity(alloc, first.len().saturating_add(second.len()))?;
    term.extend_from_slice(first)?;
    term.extend_from_slice(second)?;
    Ok(term)
}

/// Adds a term with each of others.
fn push_each(
    alloc: Global,
    term: &[usize],
    others: &[Vec<usize>],
    terms: &mut Vec<Vec<usize>>,
) -> Result<(), AllocError>
    ensures { IfOk result (λ _. numbers_view terms.new.items
        ≡ numbers_view terms.old.items ++ map (λ other. term.now ++ other) (numbers_view others.now)) }
{
    for i in 0..others.len() {
        terms.push(both(alloc, term, &others[i])?)?;
    }
    Ok(())
}

/// Each of the first terms with each of the second.
fn product(
    alloc: Global,
    first: &[Vec<usize>],
    second: &[Vec<usize>],
) -> Result<Vec<Vec<usize>>, AllocError>
    ensures { IfOk result (λ terms. numbers_view terms.items
        ≡ products (numbers_view first.now) (numbers_view second.now)) }
{
    let mut terms = Vec::new(alloc);
    for i in 0..first.len() {
        push_each(alloc, &first[i], second, &mut terms)?;
    }
    Ok(terms)
}

/// The first terms, and then the second.
fn either(
    alloc: Global,
    first: Vec<Vec<usize>>,
    second: &[Vec<usize>],
) -> Result<Vec<Vec<usize>>, AllocError>
    ensures { IfOk result (λ terms. numbers_view terms.items
        ≡ numbers_view first.items ++ numbers_view second.now) }
{
    let mut terms = first;
    push_each(alloc, &[], second, &mut terms)?;
    Ok(terms)
}

/// The terms of two predicates, of which one has to hold if `is_or`, and else both: the first and then the second, or
/// each of the first with each of the second.
///
/// # Errors
/// An allocation was refused.
pub fn joined(
    alloc: Global,
    is_or: bool,
    first: Vec<Vec<usize>>,
    second: Vec<Vec<usize>>,
) -> Result<Vec<Vec<usize>>, AllocError>
    ensures { IfOk result (λ terms. numbers_view terms.items ≡ cond is_or
        (numbers_view first.items ++ numbers_view second.items)
        (products (numbers_view first.items) (numbers_view second.items))) }
{
    if is_or {
        either(alloc, first, &second)
    } else {
        product(alloc, &first, &second)
    }
}
