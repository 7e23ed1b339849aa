//! The compiled predicate that callers see.
ghost use Rattle.def_model.specs.Cuts.{FitsProcesses};
ghost use Rattle.def_model.specs.Predicates.{test_of};
ghost use Rattle.walk_keys.specs.Neighbors.{cut_at};
ghost use Rattle.pd_pred.specs.Views.{predicate_view};
ghost use Rattle.std.specs.Prelude.{◌≡◌, ℕ, ◌-◌, ◌<◌, ◌≤◌, IfNone, IfOk, IfSome, false, length};

use super::bits::turned_word;
use super::compile::{Rest, compile};
use super::form::is_better_negated;
use super::node::{Node, holds, mask, may, must};
use super::size::comparisons;
use pd_clock::Computation;
use pd_pred::Pred;
use std::alloc::{AllocError, Global};
use std::marker::Model;
use walk_keys::RunTest;

/// A predicate compiled for a computation. The node is that of its opposite where `negated`.
#[derive(Drop)]
pub struct Compiled<'a, 'b> {
    computation: &'a Computation<'b>,
    pred: &'a Pred,
    negated: bool,
    node: Node<'a>,
}

impl<'a, 'b> Model for Compiled<'a, 'b> {
    ghost use Rattle.pd_pred.specs.Views.{predicate_view};
    ghost use Rattle.walk_tables.specs.Codes.{coded_predicate};
    ghost use Rattle.walk_tables.specs.Nodes.{IsCompiled};
    ghost use Rattle.walk_tables.specs.Views.{CompiledView};
    ghost use Rattle.std.specs.Coded.{codes};
    ghost use Rattle.std.specs.Prelude.{false};

    ghost Value = { CompiledView };

    ghost coded = { Prim.hlevel (codes, coded_predicate) };

    ghost view = { λ c. record { recorded = c.computation.now; predicate = predicate_view c.pred.now } };

    ghost invariant = { λ c. IsCompiled c.computation.now c.negated (predicate_view c.pred.now) c.node };
}

impl<'a, 'b> Compiled<'a, 'b> {
    /// Compiles the predicate for the computation. `room` is how many bytes of tables may still be built, and each
    /// table takes its bytes off it. A comparison that has no room, or whose numbers are too large, is evaluated in 128
    /// bits.
    ///
    /// # Errors
    /// An allocation was refused. Tables that were built until then may have been taken off `room`.
    pub fn compile(
        alloc: Global,
        computation: &'a Computation<'b>,
        pred: &'a Pred,
        room: &mut usize,
    ) -> Result<Compiled<'a, 'b>, AllocError>
        requires { 2 ≤ length computation.now.events }
        ensures { IfOk result (λ compiled.
            compiled ≡ record { recorded = computation.now; predicate = predicate_view pred.now }) }
    {
        let none = Rest {
            is_and: true,
            node: Node::Constant(true),
        };
        let negated = is_better_negated(pred.tree());
        let node = compile(alloc, computation, pred.tree(), negated, none, room)?;
        Ok(Compiled {
            computation,
            pred,
            negated,
            node,
        })
    }

    /// Whether the predicate holds at the cut of these counts, one for each process. It takes no memory.
    pub fn holds(&self, counts: &[u64]) -> bool
        requires two { 2 ≤ length counts.now }
        requires fits { FitsProcesses self.now.recorded.events counts.now }
        ensures { result ≡ test_of self.now.recorded self.now.predicate counts.now }
    {
        let Some((prefix, x, y)) = last_two(counts) else {
            return false;
        };
        holds(&self.node, self.computation, prefix, x, y) != self.negated
    }

    /// Whether the predicate may hold at some cut with these counts of the first processes. False is certain. It takes
    /// no memory.
    pub fn may(&self, prefix: &[u64]) -> bool
        ensures { result ≡ false → (x y : ℕ) → FitsProcesses self.now.recorded.events (cut_at prefix.now x y)
            → test_of self.now.recorded self.now.predicate (cut_at prefix.now x y) ≡ false }
    {
        if self.negated {
            !must(&self.node, prefix)
        } else {
            may(&self.node, prefix)
        }
    }

    /// How many comparisons are made at a cut, at most the greatest `u64`. It is a measure of the time that an
    /// evaluation takes, and nothing is promised of it.
    pub fn comparisons(&self) -> u64 {
        comparisons(&self.node)
    }
}

/// The counts but for the last two, and these two; nothing if there are fewer.
fn last_two(counts: &[u64]) -> Option<(&[u64], u64, u64)>
    ensures found { IfSome result (λ parts. cut_at parts.0.now parts.1 parts.2 ≡ counts.now) }
    ensures none { IfNone result (length counts.now < 2) }
{
    let (y, rest) = counts.split_last()?;
    let (x, prefix) = rest.split_last()?;
    Some((prefix, *x, *y))
}

impl RunTest for Compiled<'_, '_> {
    ghost events = { λ c. c.recorded.events };

    ghost test = { λ c. test_of c.recorded c.predicate };

    fn mask(&self, prefix: &[u64], x: u64, y: u64, n: u64) -> u64 {
        turned_word(
            self.negated,
            mask(&self.node, self.computation, prefix, x, y, n),
            n,
        )
    }
}
