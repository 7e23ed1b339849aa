//! The number of levels from one that is kept to the next.
ghost use Rattle.walk_back.specs.Answers.{IsLeastRoot};
ghost use Rattle.std.specs.Prelude.{◌≤◌};

/// The least number with a square that is no less than `n`.
pub fn least_root(n: u64) -> u64
    ensures root { IsLeastRoot result n }
    ensures within { result ≤ n }
{
    for root in 0..n {
        if root.saturating_mul(root) >= n {
            return root;
        }
    }
    n
}
