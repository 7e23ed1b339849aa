//! What a sum lacks at a cut.
ghost use Rattle.def_format.specs.Limits.{process_limit};
ghost use Rattle.wide_reach.specs.Sums.{AreSmall};
ghost use Rattle.wide_slice.specs.Values.{number_at, sum_at, value_limit};
ghost use Rattle.std.specs.Prelude.{◌≡◌, ◌<◌, ◌≤◌, ◌*◌, ◌+ℤ◌, ◌≤ℤ◌, MatchOption, length, pos, unsigned_abs};

/// The number of a row at a count, and 0 past its end.
pub fn number(row: &[i128], count: u64) -> i128
    ensures { result ≡ number_at row.now count }
{
    row.get(count as usize).copied().unwrap_or(0)
}

/// The sum of these values at a cut of these counts.
pub fn sum_of(values: &[Vec<i128>], counts: &[u64]) -> i128
    requires one_each { length values.now ≡ length counts.now }
    requires small { AreSmall values.now }
    ensures sum { result ≡ sum_at values.now counts.now }
    ensures small { unsigned_abs result ≤ process_limit * value_limit }
{
    let mut sum: i128 = 0;
    for p in 0..values.len() {
        sum += number(&values[p], counts[p]);
    }
    sum
}

/// What the sum of these values lacks to reach the total at a cut of these counts, unless it reaches it.
pub(crate) fn lack(values: &[Vec<i128>], counts: &[u64], total: i128) -> Option<u128>
    requires one_each { length values.now ≡ length counts.now }
    requires small { AreSmall values.now }
    requires total { unsigned_abs total ≤ value_limit }
    ensures { MatchOption result (total ≤ℤ sum_at values.now counts.now)
        (λ lack. (0 < lack) × (total ≡ sum_at values.now counts.now +ℤ pos lack)) }
{
    let sum = sum_of(values, counts);
    if sum >= total {
        return None;
    }
    Some((total - sum) as u128)
}
