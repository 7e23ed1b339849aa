//! The syntax tree of a predicate, for those who read predicates and those who compile them.
ghost use Rattle.def_format.specs.Limits.{predicate_byte_limit};
ghost use Rattle.std.specs.Prelude.{◌≤◌, vec_len};

use super::evaluate::holds;
use def_model::Values;

/// A sign before a term.
#[derive(Clone, Copy, Debug, PartialEq, Eq)]
pub enum Sign {
    /// The term is added.
    Plus,
    /// The term is subtracted.
    Minus,
}

/// What a sum is made of. Processes and variables are counted from 0.
#[derive(Clone, Copy, Debug, PartialEq, Eq)]
pub enum Term {
    /// A number.
    Number(u64),
    /// The value of a variable.
    Variable {
        /// The process, counted from 0.
        process: usize,
        /// The variable among the process's, counted from 0.
        var: usize,
    },
    /// A number times the value of a variable.
    Times {
        /// The number.
        factor: u32,
        /// The process, counted from 0.
        process: usize,
        /// The variable among the process's, counted from 0.
        var: usize,
    },
}

/// A term with its sign.
#[derive(Clone, Copy, Debug, PartialEq, Eq)]
pub struct SignedTerm {
    /// Whether the term is added or subtracted.
    pub sign: Sign,
    /// The term without its sign.
    pub term: Term,
}

/// A sum of terms, of which no text has more than bytes: few enough that its value fits 128 bits.
#[derive(Drop)]
pub struct Sum {
    /// The terms in the order of the text.
    pub terms: Vec<SignedTerm>,
    ghost short: { vec_len terms ≤ predicate_byte_limit },
}

/// How two sums are compared.
#[derive(Clone, Copy, Debug, PartialEq, Eq)]
pub enum Comparison {
    /// `==`
    Equals,
    /// `!=`
    Differs,
    /// `<`
    IsLess,
    /// `<=`
    IsAtMost,
    /// `>`
    IsGreater,
    /// `>=`
    IsAtLeast,
}

/// A predicate as its text spells it.
#[derive(Drop)]
pub enum Tree {
    /// True at each state.
    Always,
    /// False at each state.
    Never,
    /// Compares two sums.
    Compare {
        /// The sum before the sign of comparison.
        left: Sum,
        /// How the sums are compared.
        comparison: Comparison,
        /// The sum after the sign of comparison.
        right: Sum,
    },
    /// True where the predicate isn't.
    Not(Box<Tree>),
    /// True where both predicates are.
    And(Box<Tree>, Box<Tree>),
    /// True where one of the predicates is.
    Or(Box<Tree>, Box<Tree>),
}

impl Tree {
    ghost use Rattle.def_model.specs.Predicates.{holds_at};
    ghost use Rattle.pd_pred.specs.Trees.{tree_view};
    ghost use Rattle.std.specs.Prelude.{◌≡◌};

    /// Whether the predicate is true at the state. It takes no memory.
    pub fn holds<V: Values>(&self, values: &V) -> bool
        ensures { result ≡ holds_at (V.state values.now) (tree_view self.now) }
    {
        holds(self, values)
    }
}
