//! A keyed hash of ids.
ghost use Rattle.pd_match.specs.IdHash.{id_sum, sum_words, term_added, tail_at, word_at};
ghost use Rattle.std.specs.Prelude.{◌≡◌, ◌≤◌, ◌<◌, ◌+◌, ◌*◌, ◌/◌, ◌^◌, length, slice_index};

use std::hash::{BuildHasher, Hasher};
use std::io;
use std::random::RandomSource;

/// How many words of 32 bits are hashed at most: those of an id of 64 bytes.
const WORDS: usize = 16;

/// How many keys there are: one for each word, the one that a sum begins with, and one for the length.
const KEYS: usize = WORDS + 2;

/// Makes the hashers of ids that have these keys.
#[derive(Clone, Copy)]
pub(crate) struct IdKeys<'k>(pub(crate) &'k [u64; KEYS]);

/// A strongly universal hash of ids.
///
/// An id is a sequence of words of 32 bits. Its hash is the upper half of the sum of a key, its length times another
/// key, and each word times the key of the word's place, modulo 2^64. This is multilinear hashing (Lemire and Kaser,
/// *Strongly Universal String Hashing is Fast*, The Computer Journal 57, 2014); what a universal hash is stands in
/// Carter and Wegman, *Universal Classes of Hash Functions*, Journal of Computer and System Sciences 18, 1979.
///
/// With random keys, the hashes of two different ids of at most 64 bytes are uniform and independent, whatever the ids
/// are: who chooses ids without the keys can't make them collide more often than by chance. The keys have to be drawn
/// anew for each map, since, unlike those of SipHash, they can be computed from hashes that are seen. A longer id is
/// hashed by its length and its first 64 bytes.
#[derive(Clone, Copy)]
pub(crate) struct IdHasher<'k> {
    keys: &'k [u64; KEYS],
    sum: u64,
}

/// Random keys from the system.
///
/// # Errors
/// The system gives no random bytes.
pub(crate) fn random_keys<R: RandomSource>(rt: &R) -> io::Result<[u64; KEYS]> {
    let mut bytes = [0; 8 * KEYS];
    rt.fill_bytes(&mut bytes)?;
    let mut keys = [0; KEYS];
    for i in 0..KEYS {
        keys[i] = word(&bytes, 8 * i) | word(&bytes, 8 * i + 4) << 32;
    }
    Ok(keys)
}

/// The word that begins at this byte, whose first byte is the lowest.
#[inline(always)]
fn word(bytes: &[u8], at: usize) -> u64
    requires { at + 4 ≤ length bytes.now }
    ensures { result ≡ word_at bytes.now at }
{
    let part = &bytes[at..at + 4];
    u32::from_le_bytes([part[0], part[1], part[2], part[3]]) as u64
}

/// The bytes from `at` to `end` as a word, if they are fewer than four: the first, the middle and the last of them.
#[inline(always)]
fn tail(bytes: &[u8], at: usize, end: usize) -> u64
    requires some { at < end }
    requires within { end ≤ length bytes.now }
    ensures { result ≡ tail_at bytes.now at end }
{
    u32::from_le_bytes([bytes[at], bytes[at + (end - at) / 2], bytes[end - 1], 0]) as u64
}

/// The sum with a word times its key.
#[inline(always)]
fn add_term(sum: u64, word: u64, key: u64) -> u64
    ensures { result ≡ term_added sum word key }
{
    sum.wrapping_add(word.wrapping_mul(key))
}

/// The sum with this many words of an id, each times its key.
#[inline(always)]
fn add_words(keys: &[u64; KEYS], sum: u64, bytes: &[u8], count: usize) -> u64
    requires keyed { count ≤ 16 }
    requires within { 4 * count ≤ length bytes.now }
    ensures { result ≡ sum_words keys.now sum bytes.now count }
{
    let mut sum = sum;
    for i in 0..count {
        sum = add_term(sum, word(bytes, 4 * i), keys[i]);
    }
    sum
}

/// The sum with an id: its length and its words, each times its key.
#[inline(always)]
fn add_id(keys: &[u64; KEYS], sum: u64, bytes: &[u8]) -> u64
    ensures { result ≡ id_sum keys.now sum bytes.now }
{
    let end = bytes.len().min(4 * WORDS);
    let count = end / 4;
    let sum = add_term(sum, bytes.len() as u64, keys[WORDS + 1]);
    let sum = add_words(keys, sum, bytes, count);
    if 4 * count < end {
        return add_term(sum, tail(bytes, 4 * count, end), keys[count]);
    }
    sum
}

impl<'k> BuildHasher for IdKeys<'k> {
    type Hasher = IdHasher<'k>;

    ghost build_hasher = { λ s. record { keys = s.0; sum = slice_index s.0.now 16 } };

    #[inline(always)]
    fn build_hasher(&self) -> IdHasher<'k> {
        IdHasher {
            keys: self.0,
            sum: self.0[WORDS],
        }
    }
}

impl<'k> Hasher for IdHasher<'k> {
    ghost write = { λ s bytes. record { keys = s.keys; sum = id_sum s.keys.now s.sum bytes } };

    ghost finish = { λ s. s.sum / 2 ^ 32 };

    #[inline(always)]
    fn finish(&self) -> u64 {
        self.sum >> 32
    }

    #[inline(always)]
    fn write(&mut self, bytes: &[u8]) {
        self.sum = add_id(self.keys, self.sum, bytes);
    }
}
