//! The slice of each term of a predicate, and its sums.
ghost use Rattle.def_wide.specs.Terms.{terms_of};
ghost use Rattle.pd_pred.specs.Trees.{tree_view};
ghost use Rattle.wide_sums.specs.Literals.{IsWhole, literal_view, term_at, terms_at};
ghost use Rattle.wide_sums.specs.Places.{AddsPlace, IsPrepared};
ghost use Rattle.wide_sums.specs.Splits.{IsPut, IsSplit};
ghost use Rattle.wide_terms.specs.Rows.{AreWithin, numbers_view};
ghost use Rattle.std.specs.Prelude.{◌≡◌, ◌<◌, ◌↔◌, ℕ, All, IfOk, IsTrue, [], false, length, map, slice_index_or};

use super::literal::Literal;
use super::literals::Terms;
use pd_clock::Computation;
use pd_pred::Tree;
use std::alloc::{AllocError, Global};
use wide_terms::{Rows, Term, name_one};

/// The terms of a predicate over a computation, with the rows of those of their comparisons that name one process at
/// most.
#[derive(Drop)]
pub(crate) struct Prepared<'a> {
    pub(crate) terms: Terms<'a>,
    pub(crate) rows: Rows,
    /// The number of the row of each comparison that names one process at most.
    pub(crate) places: Vec<Option<usize>>,
}

/// What a term is made of.
#[derive(Drop)]
pub(crate) struct Split<'a> {
    /// The numbers of the rows of the comparisons that name one process at most.
    pub(crate) numbers: Vec<usize>,
    /// The comparisons that name several processes, in the order of the term.
    pub(crate) sums: Vec<Literal<'a>>,
}

/// Adds the row of a comparison if it names one process at most, and gives the number of that row.
fn push_row(
    alloc: Global,
    computation: &Computation<'_>,
    literal: Literal<'_>,
    rows: &mut Rows,
) -> Result<Option<usize>, AllocError>
    requires { IsWhole literal }
    ensures { IfOk result (AddsPlace computation.now (literal_view literal.entry) rows.old.rows.items
        rows.new.rows.items) }
{
    if !name_one(literal.left, literal.right) {
        return Ok(None);
    }
    let number = rows.len();
    rows.push(
        alloc,
        computation,
        literal.tree,
        literal.left,
        literal.right,
        literal.negated,
    )?;
    Ok(Some(number))
}

/// Adds the rows of the comparisons that name one process at most, and gives the number of the row of each.
fn push_rows(
    alloc: Global,
    computation: &Computation<'_>,
    literals: &[Literal<'_>],
    rows: &mut Rows,
) -> Result<Vec<Option<usize>>, AllocError>
    requires whole { All IsWhole literals.now }
    requires within { AreWithin computation.now rows.old.rows.items }
    ensures { IfOk result (λ places. IsPrepared computation.now rows.new.rows.items (map literal_view literals.now)
        places.items) }
{
    let mut places = Vec::with_capacity(alloc, literals.len())?;
    for literal in literals {
        let place = push_row(alloc, computation, *literal, rows)?;
        places.push(place)?;
    }
    Ok(places)
}

/// Puts a comparison with those of its kind: the number of its row after the others, or else itself.
fn put<'a>(
    literal: Literal<'a>,
    place: Option<usize>,
    numbers: &mut Vec<usize>,
    sums: &mut Vec<Literal<'a>>,
) -> Result<(), AllocError>
    ensures { IfOk result (λ _. IsPut place (literal_view literal.entry) numbers.old.items numbers.new.items
        (map literal_view sums.old.items) (map literal_view sums.new.items)) }
{
    match place {
        Some(number) => numbers.push(number)?,
        None => sums.push(literal)?,
    }
    Ok(())
}

impl<'a> Prepared<'a> {
    /// The terms of a predicate. Each of its comparisons that name one process at most is evaluated once for each time
    /// that a variable in it changes. The terms are as many as the comparisons give, so they are counted before.
    ///
    /// # Errors
    /// An allocation was refused.
    pub(crate) fn of(
        alloc: Global,
        computation: &Computation<'_>,
        tree: &'a Tree,
    ) -> Result<Prepared<'a>, AllocError>
        ensures terms { IfOk result (λ prepared. terms_at prepared.terms.literals.items
            (numbers_view prepared.terms.terms.items) ≡ terms_of false (tree_view tree.now)) }
        ensures rows { IfOk result (λ prepared. IsPrepared computation.now prepared.rows.rows.items
            (map literal_view prepared.terms.literals.items) prepared.places.items) }
    {
        let terms = Terms::of(alloc, tree)?;
        let mut rows = Rows::new(alloc);
        let places = push_rows(alloc, computation, &terms.literals, &mut rows)?;
        Ok(Prepared {
            terms,
            rows,
            places,
        })
    }

    /// How many terms there are.
    pub(crate) fn len(&self) -> usize
        ensures { result ≡ length self.now.terms.terms.items }
    {
        self.terms.terms.len()
    }

    /// What a term is made of that has the comparisons with these numbers. The computation is there for the contract
    /// alone.
    fn parts(
        &self,
        alloc: Global,
        computation: &Computation<'_>,
        term: &[usize],
    ) -> Result<Split<'a>, AllocError>
        requires there { All (λ i. i < length self.now.terms.literals.items) term.now }
        requires prepared { IsPrepared computation.now self.now.rows.rows.items
            (map literal_view self.now.terms.literals.items) self.now.places.items }
        ensures { IfOk result (λ split. IsSplit computation.now self.now.rows.rows.items
            (term_at self.now.terms.literals.items term.now) split.numbers.items (map literal_view split.sums.items)) }
    {
        // the law that the proof uses
        computation.limits();
        let mut numbers = Vec::new(alloc);
        let mut sums = Vec::new(alloc);
        for &i in term {
            put(
                self.terms.literals[i],
                self.places[i],
                &mut numbers,
                &mut sums,
            )?;
        }
        Ok(Split { numbers, sums })
    }

    /// What the term with this number, from 0, is made of. The computation is there for the contract alone.
    ///
    /// # Errors
    /// An allocation was refused.
    pub(crate) fn split(
        &self,
        alloc: Global,
        computation: &Computation<'_>,
        i: usize,
    ) -> Result<Split<'a>, AllocError>
        requires there { i < length self.now.terms.terms.items }
        requires prepared { IsPrepared computation.now self.now.rows.rows.items
            (map literal_view self.now.terms.literals.items) self.now.places.items }
        ensures { IfOk result (λ split. IsSplit computation.now self.now.rows.rows.items
            (slice_index_or (terms_at self.now.terms.literals.items (numbers_view self.now.terms.terms.items)) i [])
            split.numbers.items (map literal_view split.sums.items)) }
    {
        let split = self.parts(alloc, computation, &self.terms.terms[i])?;
        Ok(split)
    }

    /// Whether the term with this number, from 0, is a single comparison.
    pub(crate) fn is_single(&self, i: usize) -> bool
        requires { i < length self.now.terms.terms.items }
        ensures { IsTrue result ↔ (length (slice_index_or (terms_at self.now.terms.literals.items
            (numbers_view self.now.terms.terms.items)) i []) ≡ 1) }
    {
        let numbers = self.terms.terms[i].as_slice();
        numbers.len() == 1
    }

    /// The counts that are good for all comparisons of a term that name one process at most.
    pub(crate) fn good<'b>(&'b self, split: &'b Split<'_>) -> Term<'b>
        requires { All (λ k. k < length self.now.rows.rows.items) split.now.numbers.items }
        ensures rows { result.rows.now ≡ self.now.rows.rows.items }
        ensures numbers { result.numbers.now ≡ split.now.numbers.items }
    {
        self.rows.term(&split.numbers)
    }
}
