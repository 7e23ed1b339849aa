//! A hash of what is seen of processes.
ghost use Rattle.std.specs.Prelude.{◌+◌, ◌≤◌, length};

use super::order::ProcessOrder;

/// By what each number is multiplied: the odd number next to 2^64 divided by the golden ratio, which spreads the bits
/// of what it multiplies (Knuth, *The Art of Computer Programming*, volume 3, section 6.4).
const FACTOR: u64 = 0x9E37_79B9_7F4A_7C15;

/// The hash of some numbers and of one more.
#[inline(always)]
fn with_number(hash: u64, number: u64) -> u64 {
    (hash.rotate_left(5) ^ number).wrapping_mul(FACTOR)
}

/// Four counts as one number.
#[inline(always)]
fn four_counts(counts: &[u16], at: usize) -> u64
    requires { at + 4 ≤ length counts.now }
{
    counts[at] as u64
        | (counts[at + 1] as u64) << 16
        | (counts[at + 2] as u64) << 32
        | (counts[at + 3] as u64) << 48
}

/// The hash with these values.
fn with_values(hash: u64, values: &[i64]) -> u64 {
    let mut hash = with_number(hash, values.len() as u64);
    for value in values {
        hash = with_number(hash, value.cast_unsigned());
    }
    hash
}

/// The hash with the counts from this one on.
fn with_last_counts(hash: u64, counts: &[u16], from: usize) -> u64 {
    let mut hash = hash;
    for i in from..counts.len() {
        hash = with_number(hash, counts[i] as u64);
    }
    hash
}

/// The hash with these counts, of which four are one number, except the last ones.
fn with_counts(hash: u64, counts: &[u16]) -> u64 {
    let fours = counts.len() / 4;
    let mut hash = hash;
    for i in 0..fours {
        hash = with_number(hash, four_counts(counts, 4 * i));
    }
    with_last_counts(hash, counts, 4 * fours)
}

/// A hash of what is seen of these processes. Its upper half depends on all numbers, and so does its lower half, into
/// which the upper one is mixed.
pub(crate) fn hash_of(processes: &[ProcessOrder]) -> u64 {
    let mut hash = 0;
    for process in processes {
        hash = with_values(hash, &process.values);
        hash = with_counts(hash, &process.known);
    }
    hash ^ hash >> 32
}
