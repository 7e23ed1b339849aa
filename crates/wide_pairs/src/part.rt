//! What a process adds to a sum.
ghost use Rattle.def_model.specs.Events.{event_count};
ghost use Rattle.def_model.specs.Predicates as model;
ghost use Rattle.wide_pairs.specs.Parts.{IsSmall, part_of_difference, part_value, parts_value, value_after};
ghost use Rattle.pd_pred.specs.Trees.{sign_view, sum_view, term_view};
ghost use Rattle.def_format.specs.Limits.{predicate_byte_limit};
ghost use Rattle.std.specs.Int.RustNames.{unsigned_abs};
ghost use Rattle.std.specs.Prelude.{◌≡◌, ◌*◌, ◌<◌, ◌≤◌, ◌^◌, ◌*ℤ◌, pos};

use pd_clock::Computation;
use pd_pred::{Sign, SignedTerm, Sum, Term};

/// The value of a variable after the first events of its process, this many.
fn value_of(computation: &Computation<'_>, process: usize, count: u64, var: usize) -> i64
    requires { count ≤ event_count computation.now.events process }
    ensures { result ≡ value_after computation.now process count var }
{
    computation.value(process, count, var)
}

/// A multiple of a value.
fn multiple(factor: u32, value: i64) -> i128
    ensures value { result ≡ pos factor *ℤ value }
    ensures bound { unsigned_abs result < 2 ^ 95 }
{
    i128::from(factor) * i128::from(value)
}

/// What a term adds after the first events of a process, this many, if it names that process. A number is taken in, or
/// left out.
fn part_of(
    computation: &Computation<'_>,
    process: usize,
    count: u64,
    numbers: bool,
    term: Term,
) -> i128
    requires { count ≤ event_count computation.now.events process }
    ensures value { result ≡ part_value computation.now process count numbers (term_view term) }
    ensures bound { unsigned_abs result < 2 ^ 95 }
{
    match term {
        Term::Number(number) => { if numbers { i128::from(number) } else { 0 } }
        Term::Variable {
            process: named,
            var,
        } => {
            if named == process {
                i128::from(value_of(computation, process, count, var))
            } else {
                0
            }
        }
        Term::Times {
            factor,
            process: named,
            var,
        } => {
            if named == process {
                multiple(factor, value_of(computation, process, count, var))
            } else {
                0
            }
        }
    }
}

/// The same of a term with its sign.
fn signed_part(
    computation: &Computation<'_>,
    process: usize,
    count: u64,
    numbers: bool,
    signed: SignedTerm,
) -> i128
    requires { count ≤ event_count computation.now.events process }
    ensures value { result ≡ model.signed (sign_view signed.sign)
        (part_value computation.now process count numbers (term_view signed.term)) }
    ensures bound { unsigned_abs result < 2 ^ 95 }
{
    let part = part_of(computation, process, count, numbers, signed.term);
    match signed.sign {
        Sign::Plus => part,
        Sign::Minus => 0 - part,
    }
}

/// The same of a sum.
fn sum_part(
    computation: &Computation<'_>,
    process: usize,
    count: u64,
    numbers: bool,
    sum: &Sum,
) -> i128
    requires { count ≤ event_count computation.now.events process }
    ensures value { result ≡ parts_value computation.now process count numbers (sum_view sum.now) }
    ensures bound { unsigned_abs result ≤ predicate_byte_limit * 2 ^ 95 }
{
    let mut total = 0;
    for term in &sum.terms {
        total += signed_part(computation, process, count, numbers, *term);
    }
    total
}

/// What a process adds to the left side of a comparison after its first `count` events, less what it adds to the right
/// side. The numbers among the terms are taken in if `numbers`, and else left out, as are the variables of other
/// processes. It takes a search among the events of the process for each of its variables.
pub fn difference(
    computation: &Computation<'_>,
    process: usize,
    count: u64,
    numbers: bool,
    left: &Sum,
    right: &Sum,
) -> i128
    requires { count ≤ event_count computation.now.events process }
    ensures value { result
        ≡ part_of_difference computation.now process count numbers (sum_view left.now) (sum_view right.now) }
    ensures small { IsSmall result }
{
    sum_part(computation, process, count, numbers, left)
        - sum_part(computation, process, count, numbers, right)
}
