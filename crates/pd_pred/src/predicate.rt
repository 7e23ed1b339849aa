//! The predicate itself.
ghost use Rattle.def_format.specs.Limits.{predicate_byte_limit};
ghost use Rattle.def_format.specs.PredicateTexts.{IsPredicate};
ghost use Rattle.def_model.specs.Predicates.{holds_at, Predicate};
ghost use Rattle.pd_pred.specs.Trees.{tree_view};
ghost use Rattle.pd_pred.specs.Views.{long_error, predicate_view, IsErrorOf};
ghost use Rattle.std.specs.Prelude.{◌≡◌, ◌<◌, ◌≤◌, length, Err, IfOk, IfErr};

use super::build::build;
use super::evaluate::holds;
use super::lexer::{LexError, lex};
use super::numbers::first_too_large;
use super::placement::first_misplaced;
use super::tree::Tree;
use super::{Names, PredError, PredErrorKind};
use def_format::PREDICATE_BYTE_LIMIT;
use def_model::Values;
use std::alloc::Global;

/// A predicate over the variables of a session.
#[derive(Drop)]
pub struct Pred {
    tree: Tree,
}

impl Pred {
    /// The predicate that the text spells over these names.
    ///
    /// # Errors
    /// The first fault of the text with its byte, or out of memory.
    pub fn parse(alloc: Global, names: &Names, text: &str) -> Result<Pred, PredError>
        ensures ok { IfOk result (λ pred. IsPredicate names.now text.now (predicate_view pred)) }
        // The text is no other predicate.
        ensures single { IfOk result (λ pred. (other : Predicate) → IsPredicate names.now text.now other
            → other ≡ predicate_view pred) }
        ensures err { IfErr result (λ error. IsErrorOf names.now text.now error) }
        // A text that is too long is refused as such, and never as out of memory.
        ensures long { predicate_byte_limit < length text.now → result ≡ Err long_error }
    {
        def_format::one_predicate();
        def_format::distinct_names_are_clear();
        names.differ();
        if text.len() > PREDICATE_BYTE_LIMIT {
            return Err(PredError::LONG);
        }
        Pred::of_short(alloc, names, text)
    }

    /// The predicate that a text within the limit spells.
    fn of_short(alloc: Global, names: &Names, text: &str) -> Result<Pred, PredError>
        requires { length text.now ≤ predicate_byte_limit }
        ensures ok { IfOk result (λ pred. IsPredicate names.now text.now (predicate_view pred)) }
        ensures err { IfErr result (λ error. IsErrorOf names.now text.now error) }
    {
        let tokens = match lex(alloc, text) {
            Ok(tokens) => tokens,
            Err(LexError::Stray(at)) => {
                return Err(PredError {
                    kind: PredErrorKind::Character,
                    at,
                });
            }
            Err(LexError::Memory) => return Err(PredError::MEMORY),
        };
        if let Some(at) = first_too_large(&tokens) {
            return Err(PredError {
                kind: PredErrorKind::Number,
                at,
            });
        }
        if let Some(error) = first_misplaced(names, &tokens) {
            return Err(error);
        }
        let tree = build(alloc, names, &tokens)?;
        Ok(Pred { tree })
    }

    /// Whether the predicate is true at the state. It takes no memory.
    pub fn holds<V: Values>(&self, values: &V) -> bool
        ensures { result ≡ holds_at (V.state values.now) (predicate_view self.now) }
    {
        holds(&self.tree, values)
    }

    /// The syntax tree, for those who compile a predicate.
    pub fn tree(&self) -> &Tree
        ensures { tree_view result.now ≡ predicate_view self.now }
    {
        &self.tree
    }
}
