//! A set of single numbers.
ghost use Rattle.walk_tables.specs.Points.{Ascend, point_at};
ghost use Rattle.std.specs.Ordering.{int_eq};
ghost use Rattle.std.specs.Prelude.{◌≡◌, ℕ, ◌<◌, ◌≤◌, ◌≤ℤ◌, ◌<ℤ◌, IsTrue, false, length, true};

use std::alloc::{AllocError, Global};

/// Numbers, each of which stands once, in ascending order.
#[derive(Drop)]
pub(crate) struct Points {
    values: Vec<i64>,
    ghost ascend: { Ascend values.items },
}

/// How many of the ascending numbers are less than this one.
fn count_below(points: &[i64], value: i64) -> usize
    requires { Ascend points.now }
    ensures within { result ≤ length points.now }
    ensures below { (k : ℕ) → k < result → point_at points.now k <ℤ value }
    ensures rest { (k : ℕ) → result ≤ k → k < length points.now → value ≤ℤ point_at points.now k }
{
    let mut low = 0;
    let mut high = points.len();
    while low < high {
        let middle = low + (high - low) / 2;
        if points[middle] < value {
            low = middle + 1;
        } else {
            high = middle;
        }
    }
    low
}

/// Whether the number stands at this place of the list.
fn stands_at(points: &[i64], i: usize, value: i64) -> bool
    ensures there { IsTrue result → (i < length points.now) × (int_eq (point_at points.now i) value ≡ true) }
    ensures other { result ≡ false → i < length points.now → int_eq (point_at points.now i) value ≡ false }
{
    if i < points.len() {
        points[i] == value
    } else {
        false
    }
}

impl Points {
    ghost use Rattle.walk_tables.specs.Points.{has_point};
    ghost use Rattle.walk_tables.specs.Zero.{IsBetween};
    ghost use Rattle.std.specs.Ordering.{int_eq};
    ghost use Rattle.std.specs.Prelude.{◌≡◌, ℤ, ◌||◌, IfOk, false};

    /// No numbers.
    pub(crate) fn none(alloc: Global) -> Points
        ensures { (value : ℤ) → has_point result.values.items value ≡ false }
    {
        Points {
            values: Vec::new(alloc),
        }
    }

    /// How many numbers there are.
    pub(crate) fn len(&self) -> usize {
        self.values.len()
    }

    /// The numbers and one more.
    ///
    /// # Errors
    /// An allocation was refused.
    pub(crate) fn with(self, point: i64) -> Result<Points, AllocError>
        ensures { IfOk result (λ points. (value : ℤ) → has_point points.values.items value
            ≡ (int_eq value point || has_point self.values.items value)) }
    {
        let Points { mut values } = self;
        let i = count_below(&values, point);
        if stands_at(&values, i, point) {
            return Ok(Points { values });
        }
        values.insert(i, point)?;
        Ok(Points { values })
    }

    /// Whether the number is one of them.
    pub(crate) fn has(&self, value: i64) -> bool
        ensures { result ≡ has_point self.now.values.items value }
    {
        stands_at(&self.values, count_below(&self.values, value), value)
    }

    /// Whether a number between these two is one of them.
    pub(crate) fn has_between(&self, least: i64, greatest: i64) -> bool
        ensures { result ≡ false → (value : ℤ) → IsBetween least greatest value
            → has_point self.now.values.items value ≡ false }
    {
        let i = count_below(&self.values, least);
        if i < self.values.len() {
            self.values[i] <= greatest
        } else {
            false
        }
    }
}
