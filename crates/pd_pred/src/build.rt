//! The syntax tree of tokens that were checked before.
//!
//! Each function reads the longest prefix of the tokens that one rule of the grammar spells, and gives the rest.
//! The tokens are known to be a predicate's, so what can't stand there is never met.
ghost use Rattle.def_format.specs.Grammar.{NamedBy, OrRule, AndRule, NotRule, SpellsWhole};
ghost use Rattle.def_format.specs.Limits.{predicate_byte_limit};
ghost use Rattle.def_format.specs.PredicateTexts.{NumbersFit, tokens_of};
ghost use Rattle.def_format.specs.PrefixWalk.{AtEnd, AtOperand, AtTerm, AfterStar, OnLeft, start, walk};
ghost use Rattle.def_format.specs.Tokens.{Digits, Relates, Signs, Star, Word};
ghost use Rattle.def_model.specs.Predicates.{Variable};
ghost use Rattle.pd_pred.specs.Beginnings.{BeginsAs};
ghost use Rattle.pd_pred.specs.Building.{
  tokens_view,
  Follows,
  IsFirstSign,
  begins_with_any_word,
  begins_with_number,
  begins_with_relation,
  begins_with_sign,
  begins_with_star,
  begins_with_word,
  without_minus,
  GoesOn,
  Leads,
  LeadsOnSide,
  AreReadable,
  IsRead,
  IsSumRead,
  IsTermRead,
};
ghost use Rattle.pd_pred.specs.Placement.{IsWellPlaced};
ghost use Rattle.pd_pred.specs.Tokens.{lexed_view};
ghost use Rattle.pd_pred.specs.Trees.{comparison_view, sign_view, sum_view, term_view, tree_view};
ghost use Rattle.pd_pred.specs.declared.token.Placed.{Placed};
ghost use Rattle.std.specs.Prelude.{◌≡◌, ◌<◌, ◌≤◌, ◌+◌, ◌∷◌, IfOk, IsFalse, IsTrue, MatchOption, Some, codes, length};

use super::Names;
use super::numbers::number_of;
use super::token::{Placed, Token};
use super::tree::{Comparison, Sign, SignedTerm, Sum, Term, Tree};
use std::alloc::{AllocError, Global};

/// The tree of the predicate that the tokens spell, the end among them.
///
/// # Errors
/// Memory ran out.
pub(crate) fn build(alloc: Global, names: &Names, tokens: &[Placed<'_>]) -> Result<Tree, AllocError>
    requires walked { walk start (tokens_of (lexed_view tokens.now)) ≡ Some AtEnd }
    requires known { IsWellPlaced names.now (lexed_view tokens.now) }
    requires fit { NumbersFit (lexed_view tokens.now) }
    requires few { length tokens.now ≤ predicate_byte_limit + 1 }
    ensures { IfOk result (λ tree. SpellsWhole (NamedBy names.now) (tokens_of (lexed_view tokens.now))
        (tree_view tree)) }
{
    let (tree, _rest) = disjunction(alloc, names, tokens)?;
    Ok(tree)
}

/// Operands of `or`, taken together from the left.
#[cycle(build)]
fn disjunction<'a>(
    alloc: Global,
    names: &Names,
    tokens: &'a [Placed<'a>],
) -> Result<(Tree, &'a [Placed<'a>]), AllocError>
    requires readable { AreReadable names.now tokens.now }
    requires leads { Leads AtOperand (tokens_view tokens.now) }
    ensures read { IfOk result (λ built. IsRead names.now OrRule tokens.now built.1.now (tree_view built.0)) }
    ensures stops_at_and { IfOk result (λ built. IsFalse (begins_with_word (codes "and") (tokens_view built.1.now))) }
    ensures stops_at_or { IfOk result (λ built. IsFalse (begins_with_word (codes "or") (tokens_view built.1.now))) }
{
    let (mut tree, mut rest) = conjunction(alloc, names, tokens)?;
    while let Some(following) = after_word(rest, "or") {
        let (right, later) = conjunction(alloc, names, following)?;
        let left = Box::new(alloc, tree)?;
        let right = Box::new(alloc, right)?;
        tree = Tree::Or(left, right);
        rest = later;
    }
    Ok((tree, rest))
}

/// Operands of `and`, taken together from the left.
#[cycle(build)]
fn conjunction<'a>(
    alloc: Global,
    names: &Names,
    tokens: &'a [Placed<'a>],
) -> Result<(Tree, &'a [Placed<'a>]), AllocError>
    requires readable { AreReadable names.now tokens.now }
    requires leads { Leads AtOperand (tokens_view tokens.now) }
    ensures read { IfOk result (λ built. IsRead names.now AndRule tokens.now built.1.now (tree_view built.0)) }
    ensures stops_at_and { IfOk result (λ built. IsFalse (begins_with_word (codes "and") (tokens_view built.1.now))) }
{
    let (mut tree, mut rest) = operand(alloc, names, tokens)?;
    while let Some(following) = after_word(rest, "and") {
        let (right, later) = operand(alloc, names, following)?;
        let left = Box::new(alloc, tree)?;
        let right = Box::new(alloc, right)?;
        tree = Tree::And(left, right);
        rest = later;
    }
    Ok((tree, rest))
}

/// A predicate in parentheses, a negation, a truth value or a comparison.
#[cycle(build)]
fn operand<'a>(
    alloc: Global,
    names: &Names,
    tokens: &'a [Placed<'a>],
) -> Result<(Tree, &'a [Placed<'a>]), AllocError>
    requires readable { AreReadable names.now tokens.now }
    requires leads { Leads AtOperand (tokens_view tokens.now) }
    ensures { IfOk result (λ built. IsRead names.now NotRule tokens.now built.1.now (tree_view built.0)) }
{
    match beginning_of(tokens) {
        Beginning::Paren(inside) => {
            let (tree, closing) = disjunction(alloc, names, inside)?;
            Ok((tree, after_first(closing)))
        }
        Beginning::Negation(following) => {
            let (operand, rest) = operand(alloc, names, following)?;
            let operand = Box::new(alloc, operand)?;
            Ok((Tree::Not(operand), rest))
        }
        Beginning::Truth(rest) => Ok((Tree::Always, rest)),
        Beginning::Falsehood(rest) => Ok((Tree::Never, rest)),
        Beginning::Comparison => comparison(alloc, names, tokens),
    }
}

/// How an operand begins, with what follows its first token.
enum Beginning<'a> {
    /// `(`
    Paren(&'a [Placed<'a>]),
    /// `not`
    Negation(&'a [Placed<'a>]),
    /// `true`
    Truth(&'a [Placed<'a>]),
    /// `false`
    Falsehood(&'a [Placed<'a>]),
    /// A sum, which is compared with another.
    Comparison,
}

/// How the operand begins that these tokens begin with.
fn beginning_of<'a>(tokens: &'a [Placed<'a>]) -> Beginning<'a>
    requires { Leads AtOperand (tokens_view tokens.now) }
    ensures { BeginsAs tokens.now result }
{
    let Some((first, rest)) = tokens.split_first() else {
        unreachable!()
    };
    match first.token {
        Token::OpenParen => Beginning::Paren(rest),
        Token::Word(word) => match word {
            "not" => Beginning::Negation(rest),
            "true" => Beginning::Truth(rest),
            "false" => Beginning::Falsehood(rest),
            _ => Beginning::Comparison,
        },
        _ => Beginning::Comparison,
    }
}

/// Two sums and how they are compared.
fn comparison<'a>(
    alloc: Global,
    names: &Names,
    tokens: &'a [Placed<'a>],
) -> Result<(Tree, &'a [Placed<'a>]), AllocError>
    requires readable { AreReadable names.now tokens.now }
    requires leads { Leads (AtTerm OnLeft) (without_minus (tokens_view tokens.now)) }
    requires begins { GoesOn AtOperand (tokens_view tokens.now) (AtTerm OnLeft)
        (without_minus (tokens_view tokens.now)) }
    ensures { IfOk result (λ built. IsRead names.now NotRule tokens.now built.1.now (tree_view built.0)) }
{
    let (left, related) = sum(alloc, names, tokens)?;
    let (comparison, following) = after_comparison(related);
    let (right, rest) = sum(alloc, names, following)?;
    let tree = Tree::Compare {
        left,
        comparison,
        right,
    };
    Ok((tree, rest))
}

/// Terms with their signs; a first plus isn't written.
fn sum<'a>(
    alloc: Global,
    names: &Names,
    tokens: &'a [Placed<'a>],
) -> Result<(Sum, &'a [Placed<'a>]), AllocError>
    requires readable { AreReadable names.now tokens.now }
    requires leads { LeadsOnSide AtTerm (without_minus (tokens_view tokens.now)) }
    ensures read { IfOk result (λ built. IsSumRead names.now tokens.now built.1.now (sum_view built.0)) }
    ensures stops { IfOk result (λ built. IsFalse (begins_with_sign (tokens_view built.1.now))) }
{
    let (sign, following) = first_sign(tokens);
    let (first, mut rest) = term(names, following);
    let mut terms = Vec::new(alloc);
    terms.push(SignedTerm { sign, term: first })?;
    while let Some((sign, following)) = after_sign(rest) {
        let (next, later) = term(names, following);
        terms.push(SignedTerm { sign, term: next })?;
        rest = later;
    }
    Ok((Sum { terms }, rest))
}

/// The sign of a sum's first term, and what follows it.
fn first_sign<'a>(tokens: &'a [Placed<'a>]) -> (Sign, &'a [Placed<'a>])
    requires { LeadsOnSide AtTerm (without_minus (tokens_view tokens.now)) }
    ensures { IsFirstSign (sign_view result.0) tokens.now result.1.now }
{
    match after_sign(tokens) {
        Some(signed) => signed,
        None => (Sign::Plus, tokens),
    }
}

/// A number, a variable, or a number times a variable.
fn term<'a>(names: &Names, tokens: &'a [Placed<'a>]) -> (Term, &'a [Placed<'a>])
    requires readable { AreReadable names.now tokens.now }
    requires leads { LeadsOnSide AtTerm (tokens_view tokens.now) }
    ensures { IsTermRead names.now AtTerm tokens.now result.1.now (term_view result.0) }
{
    let Some((number, following)) = after_number(tokens) else {
        let (process, var, rest) = reference(names, tokens);
        return (Term::Variable { process, var }, rest);
    };
    let Some(factored) = after_star(following) else {
        return (Term::Number(number), following);
    };
    let (process, var, rest) = reference(names, factored);
    let term = Term::Times {
        factor: number as u32,
        process,
        var,
    };
    (term, rest)
}

/// The numbers of the process and the variable that the tokens name.
fn reference<'a>(names: &Names, tokens: &'a [Placed<'a>]) -> (usize, usize, &'a [Placed<'a>])
    requires readable { AreReadable names.now tokens.now }
    requires leads { LeadsOnSide AfterStar (tokens_view tokens.now) }
    ensures { IsTermRead names.now AfterStar tokens.now result.2.now (Variable result.0 result.1) }
{
    let (process, dotted) = after_name(tokens);
    let (var, rest) = after_name(after_first(dotted));
    let Some(process) = names.find(process) else {
        unreachable!()
    };
    let Some(var) = names.find_var(process, var) else {
        unreachable!()
    };
    (process, var, rest)
}

/// What follows the word, if the tokens begin with it.
fn after_word<'a>(tokens: &'a [Placed<'a>], word: &str) -> Option<&'a [Placed<'a>]>
    ensures { MatchOption result (IsFalse (begins_with_word word.now (tokens_view tokens.now))) (λ rest.
        Follows (Word word.now) tokens.now rest.now) }
{
    let (first, rest) = tokens.split_first()?;
    match first.token {
        Token::Word(found) if found == word => Some(rest),
        _ => None,
    }
}

/// The sign and what follows it, if the tokens begin with one.
fn after_sign<'a>(tokens: &'a [Placed<'a>]) -> Option<(Sign, &'a [Placed<'a>])>
    ensures { MatchOption result (IsFalse (begins_with_sign (tokens_view tokens.now))) (λ signed.
        Follows (Signs (sign_view signed.0)) tokens.now signed.1.now) }
{
    let (first, rest) = tokens.split_first()?;
    match first.token {
        Token::Signs(sign) => Some((sign, rest)),
        _ => None,
    }
}

/// The number and what follows it, if the tokens begin with one.
fn after_number<'a>(tokens: &'a [Placed<'a>]) -> Option<(u64, &'a [Placed<'a>])>
    requires { NumbersFit (lexed_view tokens.now) }
    ensures { MatchOption result (IsFalse (begins_with_number (tokens_view tokens.now))) (λ numbered.
        Follows (Digits numbered.0) tokens.now numbered.1.now) }
{
    let (first, rest) = tokens.split_first()?;
    match first.token {
        Token::Digits(digits) => Some((number_of(digits), rest)),
        _ => None,
    }
}

/// What follows `*`, if the tokens begin with it.
fn after_star<'a>(tokens: &'a [Placed<'a>]) -> Option<&'a [Placed<'a>]>
    ensures { MatchOption result (IsFalse (begins_with_star (tokens_view tokens.now))) (λ rest.
        Follows Star tokens.now rest.now) }
{
    let (first, rest) = tokens.split_first()?;
    match first.token {
        Token::Star => Some(rest),
        _ => None,
    }
}

/// The word with which the tokens begin, and what follows it.
fn after_name<'a>(tokens: &'a [Placed<'a>]) -> (&'a str, &'a [Placed<'a>])
    requires { IsTrue (begins_with_any_word (tokens_view tokens.now)) }
    ensures { Follows (Word result.0.now) tokens.now result.1.now }
{
    let Some((first, rest)) = tokens.split_first() else {
        unreachable!()
    };
    let Token::Word(name) = first.token else {
        unreachable!()
    };
    (name, rest)
}

/// The comparison with which the tokens begin, and what follows it.
fn after_comparison<'a>(tokens: &'a [Placed<'a>]) -> (Comparison, &'a [Placed<'a>])
    requires { IsTrue (begins_with_relation (tokens_view tokens.now)) }
    ensures { Follows (Relates (comparison_view result.0)) tokens.now result.1.now }
{
    let Some((first, rest)) = tokens.split_first() else {
        unreachable!()
    };
    let Token::Relates(comparison) = first.token else {
        unreachable!()
    };
    (comparison, rest)
}

/// What follows the first token.
fn after_first<'a>(tokens: &'a [Placed<'a>]) -> &'a [Placed<'a>]
    requires { 0 < length tokens.now }
    ensures { (first : Placed) × (tokens.now ≡ first ∷ result.now) }
{
    let Some((_first, rest)) = tokens.split_first() else {
        unreachable!()
    };
    rest
}
