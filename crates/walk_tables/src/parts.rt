//! What each process adds to the difference of two sums.
ghost use Rattle.def_format.specs.Limits.{predicate_byte_limit};
ghost use Rattle.def_model.specs.Events.{event_count};
ghost use Rattle.def_model.specs.Predicates as model;
ghost use Rattle.def_model.specs.Predicates.{state_at};
ghost use Rattle.pd_pred.specs.Trees.{sign_view, term_view, terms_view};
ghost use Rattle.walk_tables.specs.Parts.{
  IsRowOf,
  SpeakBelow,
  numbers_value,
  part_value,
  parts_value,
  row_at,
};
ghost use Rattle.walk_tables.specs.Zero.{IsSmall};
ghost use Rattle.std.specs.Int.RustNames.{unsigned_abs};
ghost use Rattle.std.specs.Prelude.{◌≡◌, ℕ, ℤ, ◌+◌, ◌*◌, ◌<◌, ◌≤◌, ◌^◌, pos, ◌+ℤ◌, ◌-ℤ◌, ◌*ℤ◌, IfOk, IfSome, IsTrue, List, MatchOption, false, length, replicate, slice_index};

use super::table::PART_LIMIT;
use pd_clock::Computation;
use pd_pred::{Sign, SignedTerm, Term};
use std::alloc::{AllocError, Global};

/// How many bytes a number of a table takes.
pub(crate) const NUMBER_BYTES: usize = 8;

/// Whether the terms speak of none but the first processes.
pub(crate) fn speak_below(terms: &[SignedTerm], processes: usize) -> bool
    ensures { IsTrue result → SpeakBelow processes (terms_view terms.now) }
{
    for signed in terms {
        match signed.term {
            Term::Number(_) => {}
            Term::Variable { process, .. } | Term::Times { process, .. } => {
                if process >= processes {
                    return false;
                }
            }
        }
    }
    true
}

/// What the term adds to a sum as this multiple of a variable of the process, if it speaks of that process: the
/// variable and the multiple. The sum itself is added or subtracted.
fn multiple_of(signed: SignedTerm, side: Sign, process: usize) -> Option<(usize, i128)>
    ensures value { (state : ℕ → ℕ → ℤ) → MatchOption result
        (model.signed (sign_view side) (model.signed (sign_view signed.sign)
        (part_value state process (term_view signed.term))) ≡ pos 0)
        (λ found. model.signed (sign_view side) (model.signed (sign_view signed.sign)
        (part_value state process (term_view signed.term))) ≡ found.1 *ℤ state process found.0) }
    ensures small { IfSome result (λ found. unsigned_abs found.1 < 2 ^ 32) }
{
    match signed.term {
        Term::Number(_) => None,
        Term::Variable { process: p, var } => {
            if p == process {
                Some((var, signed_factor(1, signed.sign, side)))
            } else {
                None
            }
        }
        Term::Times {
            factor,
            process: p,
            var,
        } => {
            if p == process {
                Some((var, signed_factor(factor, signed.sign, side)))
            } else {
                None
            }
        }
    }
}

/// The factor with two signs.
fn signed_factor(factor: u32, sign: Sign, side: Sign) -> i128
    ensures value { result ≡ model.signed (sign_view side) (model.signed (sign_view sign) (pos factor)) }
    ensures small { unsigned_abs result < 2 ^ 32 }
{
    let factor = i128::from(factor);
    match (sign, side) {
        (Sign::Plus, Sign::Plus) => factor,
        (Sign::Minus, Sign::Minus) => factor,
        (Sign::Plus, Sign::Minus) => 0 - factor,
        (Sign::Minus, Sign::Plus) => 0 - factor,
    }
}

/// A multiple of a value.
fn multiple(factor: i128, value: i64) -> i128
    requires { unsigned_abs factor < 2 ^ 32 }
    ensures value { result ≡ factor *ℤ value }
    ensures small { unsigned_abs result < 2 ^ 95 }
{
    factor * i128::from(value)
}

/// The number and a multiple of the value, if they have a sum that isn't too large.
fn added(number: i64, factor: i128, value: i64) -> Option<i64>
    requires { unsigned_abs factor < 2 ^ 32 }
    ensures value { IfSome result (λ sum. sum ≡ number +ℤ factor *ℤ value) }
    ensures small { IfSome result (λ sum. IsSmall sum) }
{
    let sum = i128::from(number) + multiple(factor, value);
    if sum > PART_LIMIT || sum < 0 - PART_LIMIT {
        return None;
    }
    Some(sum as i64)
}

/// Adds a multiple of a variable's value at each count. It is false where a number would get too large.
fn add_values(
    computation: &Computation<'_>,
    process: usize,
    var: usize,
    factor: i128,
    row: &mut [i64],
) -> bool
    requires within { process < length computation.now.events }
    requires long { length row.old ≤ event_count computation.now.events process + 1 }
    requires factor { unsigned_abs factor < 2 ^ 32 }
    requires small { (n : ℕ) → IsSmall (row_at row.old n) }
    ensures small { IsTrue result → (n : ℕ) → IsSmall (row_at row.new n) }
    ensures added { IsTrue result → (counts : List ℕ) → slice_index counts process < length row.old
        → row_at row.new (slice_index counts process) ≡ row_at row.old (slice_index counts process)
        +ℤ factor *ℤ state_at computation.now.initial computation.now.events counts process var }
{
    for n in 0..row.len() {
        let value = computation.value(process, n as u64, var);
        match added(row[n], factor, value) {
            Some(sum) => row[n] = sum,
            None => return false,
        }
    }
    true
}

/// Adds, or subtracts, what the terms of the process have at each count. It is false where a number would get too
/// large.
fn add_terms(
    computation: &Computation<'_>,
    process: usize,
    terms: &[SignedTerm],
    side: Sign,
    row: &mut [i64],
) -> bool
    requires within { process < length computation.now.events }
    requires long { length row.old ≤ event_count computation.now.events process + 1 }
    requires small { (n : ℕ) → IsSmall (row_at row.old n) }
    ensures small { IsTrue result → (n : ℕ) → IsSmall (row_at row.new n) }
    ensures added { IsTrue result → (counts : List ℕ) → slice_index counts process < length row.old
        → row_at row.new (slice_index counts process) ≡ row_at row.old (slice_index counts process)
        +ℤ model.signed (sign_view side) (parts_value
        (state_at computation.now.initial computation.now.events counts) process (terms_view terms.now)) }
{
    for signed in terms {
        if let Some((var, factor)) = multiple_of(*signed, side, process) {
            if !add_values(computation, process, var, factor, row) {
                return false;
            }
        }
    }
    true
}

/// Whether one of the terms speaks of the process.
fn speaks_of(terms: &[SignedTerm], process: usize) -> bool
    ensures { result ≡ false → (state : ℕ → ℕ → ℤ) → parts_value state process (terms_view terms.now) ≡ pos 0 }
{
    for signed in terms {
        if multiple_of(*signed, Sign::Plus, process).is_some() {
            return true;
        }
    }
    false
}

/// As many zeros.
fn zeros(alloc: Global, n: usize) -> Result<Vec<i64>, AllocError>
    ensures { IfOk result (λ row. row.items ≡ replicate n (pos 0)) }
{
    vec![in alloc; 0i64; n]
}

/// What the process adds to the difference of two sums, by the count of its events: nothing where there is no room for
/// it, or a number would get too large.
pub(crate) fn row_of(
    alloc: Global,
    computation: &Computation<'_>,
    process: usize,
    left: &[SignedTerm],
    right: &[SignedTerm],
    room: &mut usize,
) -> Result<Option<Vec<i64>>, AllocError>
    requires { process < length computation.now.events }
    ensures { IfOk result (λ found. IfSome found (λ row.
        IsRowOf computation.now (terms_view left.now) (terms_view right.now) process row.items)) }
{
    if !speaks_of(left, process) && !speaks_of(right, process) {
        return Ok(Some(Vec::new(alloc)));
    }
    computation.limits();
    let size = computation.events(process) as usize + 1;
    let bytes = size * NUMBER_BYTES;
    if *room < bytes {
        return Ok(None);
    }
    *room -= bytes;
    let mut row = zeros(alloc, size)?;
    if add_terms(computation, process, left, Sign::Plus, &mut row)
        && add_terms(computation, process, right, Sign::Minus, &mut row)
    {
        Ok(Some(row))
    } else {
        Ok(None)
    }
}

/// The sum of the numbers among the terms.
fn numbers(terms: &[SignedTerm]) -> i128
    requires { length terms.now ≤ predicate_byte_limit }
    ensures value { result ≡ numbers_value (terms_view terms.now) }
    ensures small { unsigned_abs result ≤ predicate_byte_limit * 2 ^ 64 }
{
    let mut total: i128 = 0;
    for signed in terms {
        if let Term::Number(number) = signed.term {
            match signed.sign {
                Sign::Plus => total += i128::from(number),
                Sign::Minus => total -= i128::from(number),
            }
        }
    }
    total
}

/// What the numbers among the terms add to the difference of two sums, if it isn't too large.
pub(crate) fn constant_of(left: &[SignedTerm], right: &[SignedTerm]) -> Option<i64>
    requires left { length left.now ≤ predicate_byte_limit }
    requires right { length right.now ≤ predicate_byte_limit }
    ensures value { IfSome result (λ constant. constant
        ≡ numbers_value (terms_view left.now) -ℤ numbers_value (terms_view right.now)) }
    ensures small { IfSome result (λ constant. IsSmall constant) }
{
    let constant = numbers(left) - numbers(right);
    if constant > PART_LIMIT || constant < 0 - PART_LIMIT {
        return None;
    }
    Some(constant as i64)
}
