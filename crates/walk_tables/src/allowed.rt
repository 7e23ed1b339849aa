//! A set of numbers, as comparisons with constants that are joined by an `or` make it.
ghost use Rattle.walk_tables.specs.Zero.{part_limit};
ghost use Rattle.std.specs.Int.RustNames.{unsigned_abs};
ghost use Rattle.std.specs.Prelude.{◌≡◌, ◌≤◌, ◌*◌};

use super::points::Points;
use pd_pred::Comparison;
use std::alloc::{AllocError, Global};

/// The numbers below one, those above another one, and single numbers.
#[derive(Drop)]
pub(crate) struct Allowed {
    below: i64,
    above: i64,
    points: Points,
}

impl Allowed {
    ghost use Rattle.def_model.specs.Predicates as model;
    ghost use Rattle.pd_pred.specs.Trees.{comparison_view};
    ghost use Rattle.walk_tables.specs.Choices.{allows};
    ghost use Rattle.walk_tables.specs.Zero.{IsBetween, compares_with_zero};
    ghost use Rattle.std.specs.Ordering.{int_eq};
    ghost use Rattle.std.specs.Prelude.{ℤ, ◌||◌, IfOk, IfSome, false, int_lt};

    /// None of the numbers between these two.
    pub(crate) fn none(alloc: Global, least: i64, greatest: i64) -> Allowed
        ensures { (value : ℤ) → IsBetween least greatest value → allows result value ≡ false }
    {
        Allowed {
            below: least,
            above: greatest,
            points: Points::none(alloc),
        }
    }

    /// The numbers and all that are less than this one.
    fn with_below(self, at: i64) -> Allowed
        ensures { (value : ℤ) → allows result value ≡ (int_lt value at || allows self value) }
    {
        if at <= self.below {
            return self;
        }
        let Allowed {
            below: _,
            above,
            points,
        } = self;
        Allowed {
            below: at,
            above,
            points,
        }
    }

    /// The numbers and all that are greater than this one.
    fn with_above(self, at: i64) -> Allowed
        ensures { (value : ℤ) → allows result value ≡ (int_lt at value || allows self value) }
    {
        if at >= self.above {
            return self;
        }
        let Allowed {
            below,
            above: _,
            points,
        } = self;
        Allowed {
            below,
            above: at,
            points,
        }
    }

    /// The numbers and this one.
    ///
    /// # Errors
    /// An allocation was refused.
    fn with_point(self, at: i64) -> Result<Allowed, AllocError>
        ensures { IfOk result (λ allowed. (value : ℤ) → allows allowed value
            ≡ (int_eq value at || allows self value)) }
    {
        if self.has(at) {
            return Ok(self);
        }
        let Allowed {
            below,
            above,
            points,
        } = self;
        let points = points.with(at)?;
        Ok(Allowed {
            below,
            above,
            points,
        })
    }

    /// How many times the single numbers can be halved.
    pub(crate) fn halvings(&self) -> u64 {
        u64::from(usize::BITS - self.points.len().leading_zeros())
    }

    /// The numbers and those that compare like this with a number.
    ///
    /// # Errors
    /// An allocation was refused.
    pub(crate) fn with(self, comparison: Comparison, at: i64) -> Result<Allowed, AllocError>
        requires { unsigned_abs at ≤ 2 * part_limit }
        ensures { IfOk result (λ allowed. (value : ℤ) → allows allowed value
            ≡ (model.compares (comparison_view comparison) value at || allows self value)) }
    {
        match comparison {
            Comparison::Equals => self.with_point(at),
            Comparison::Differs => Ok(self.with_below(at).with_above(at)),
            Comparison::IsLess => Ok(self.with_below(at)),
            Comparison::IsAtMost => Ok(self.with_below(at + 1)),
            Comparison::IsGreater => Ok(self.with_above(at)),
            Comparison::IsAtLeast => Ok(self.with_above(at - 1)),
        }
    }

    /// Whether the number is one of them.
    #[inline(always)]
    pub(crate) fn has(&self, value: i64) -> bool
        ensures { result ≡ allows self.now value }
    {
        value < self.below || self.above < value || self.points.has(value)
    }

    /// Whether all numbers between these two are among them, or none; nothing if neither is sure.
    pub(crate) fn decided(&self, least: i64, greatest: i64) -> Option<bool>
        ensures { IfSome result (λ truth. (value : ℤ) → IsBetween least greatest value
            → allows self.now value ≡ truth) }
    {
        if greatest < self.below {
            return Some(true);
        }
        if self.above < least {
            return Some(true);
        }
        if least == greatest {
            return Some(self.has(least));
        }
        if least < self.below {
            return None;
        }
        if self.above < greatest {
            return None;
        }
        if self.points.has_between(least, greatest) {
            return None;
        }
        Some(false)
    }
}
