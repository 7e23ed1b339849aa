//! Which of two cuts is lower.
ghost use Rattle.def_wide.specs.Heights.{IsLowerThan, height};
ghost use Rattle.wide_sums.specs.FirstCuts.{IsLowerOf};
ghost use Rattle.std.specs.Prelude.{◌≡◌, ◌↔◌, IfSome, IsTrue, length};

use pd_clock::Cut;
use wide_conjunctions::is_lex_below;

/// The greatest of these counts.
fn height_of(counts: &[u64]) -> u64
    ensures { result ≡ height counts.now }
{
    let mut height: u64 = 0;
    for count in counts {
        height = height.max(*count);
    }
    height
}

/// Whether a cut is lower than another: its greatest count is less, or it is the same one and the cut comes
/// lexicographically before the other.
fn is_lower(a: &Cut, b: &Cut) -> bool
    requires { length a.now ≡ length b.now }
    ensures { IsTrue result ↔ IsLowerThan a.now b.now }
{
    let first = height_of(a.counts());
    let second = height_of(b.counts());
    first < second || (first == second && is_lex_below(a.counts(), b.counts()))
}

/// The lower of two cuts, of those that there are.
pub(crate) fn lower_of(first: Option<Cut>, second: Option<Cut>) -> Option<Cut>
    requires { IfSome first (λ a. IfSome second (λ b. length a ≡ length b)) }
    ensures { IsLowerOf first second result }
{
    let Some(a) = first else {
        return second;
    };
    let Some(b) = second else {
        return Some(a);
    };
    if is_lower(&b, &a) { Some(b) } else { Some(a) }
}
