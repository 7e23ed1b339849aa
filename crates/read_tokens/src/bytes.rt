//! What stands at the start of some bytes.
ghost use Rattle.std.specs.Prelude.{ℕ, ◌+◌, ◌≡◌, ◌<◌, ◌≤◌, ◌∷◌, All, IfSome, IsTrue, length, take};
ghost use Rattle.core.specs.Slice.Scan.{digits_from, flag_word, little_endian};
ghost use Rattle.json.specs.Lex.{between, lex};
ghost use Rattle.read_tokens.specs.Runs.{EndsValue, IsNumber, IsPlain, IsQuoted, IsWhole};
ghost use Rattle.read_tokens.specs.Words.{is_special};

/// What follows this byte, if it comes first.
#[inline(always)]
pub(crate) fn after_byte(bytes: &[u8], byte: u8) -> Option<&[u8]>
    ensures { IfSome result (λ after. bytes.now ≡ byte ∷ after.now) }
{
    if !bytes.is_empty() && bytes[0] == byte {
        Some(&bytes[1..])
    } else {
        None
    }
}

/// What follows a space, a tab or a CR, if one comes first. Between tokens it says nothing.
#[inline(always)]
fn after_space(bytes: &[u8]) -> Option<&[u8]>
    ensures { IfSome result (λ after. (length after.now < length bytes.now)
        × (lex between after.now ≡ lex between bytes.now)) }
{
    if bytes.is_empty() || bytes[0] > b' ' {
        return None;
    }
    if let Some(after) = after_byte(bytes, b' ') {
        return Some(after);
    }
    if let Some(after) = after_byte(bytes, b'\t') {
        return Some(after);
    }
    let after = after_byte(bytes, b'\r')?;
    Some(after)
}

/// What follows the spaces.
#[inline(always)]
pub(crate) fn after_spaces(bytes: &[u8]) -> &[u8]
    ensures { lex between result.now ≡ lex between bytes.now }
{
    let mut rest = bytes;
    'spaces: while let Some(after) = after_space(rest) {
        rest = after;
    }
    rest
}

/// Whether a value ends before these bytes: a comma or a closing brace comes first.
#[inline(always)]
pub(crate) fn ends_value(bytes: &[u8]) -> bool
    ensures { IsTrue result → EndsValue bytes.now }
{
    if let Some(_following) = after_byte(bytes, b',') {
        return true;
    }
    if let Some(_following) = after_byte(bytes, b'}') {
        return true;
    }
    false
}

/// Whether a byte of a text stands for itself.
#[inline(always)]
fn is_plain(byte: u8) -> bool
    ensures { IsTrue result → IsPlain byte }
{
    byte >= b' ' && byte != b'"' && byte != b'\\'
}

/// The highest bit of each byte of a word.
const HIGH_BITS: u64 = 0x8080_8080_8080_8080;

/// The other bits.
const LOW_BITS: u64 = 0x7f7f_7f7f_7f7f_7f7f;

/// The 8 bytes from a place on as one number, the first of them lowest.
#[inline(always)]
fn word_at(bytes: &[u8], at: usize) -> u64
    requires { at + 8 ≤ length bytes.now }
    ensures { result ≡ little_endian bytes.now at }
{
    u64::from_le_bytes([
        bytes[at],
        bytes[at + 1],
        bytes[at + 2],
        bytes[at + 3],
        bytes[at + 4],
        bytes[at + 5],
        bytes[at + 6],
        bytes[at + 7],
    ])
}

/// The highest bit of each byte of a word that doesn't stand for itself. No sum carries into the next byte.
#[inline(always)]
fn special_marks(word: u64) -> u64
    ensures { (byte : ℕ → ℕ) → ((k : ℕ) → byte k < 256) → word ≡ digits_from byte 0 8
        → result ≡ flag_word (λ k. is_special (byte k)) }
{
    let no_quote = ((word ^ 0x2222_2222_2222_2222) & LOW_BITS) + LOW_BITS;
    let no_backslash = ((word ^ 0x5c5c_5c5c_5c5c_5c5c) & LOW_BITS) + LOW_BITS;
    let no_control = (word & LOW_BITS) + 0x6060_6060_6060_6060;
    ((no_quote & no_backslash & no_control | word) & HIGH_BITS) ^ HIGH_BITS
}

/// How many bytes stand for themselves before the first one that doesn't.
#[inline(never)]
fn plain_bytes(bytes: &[u8]) -> usize
    ensures within { result ≤ length bytes.now }
    ensures plain { All IsPlain (take result bytes.now) }
{
    let mut count = 0usize;
    'words: while bytes.len() - count >= 8 {
        let marks = special_marks(word_at(bytes, count));
        if marks != 0 {
            return count + marks.trailing_zeros() as usize / 8;
        }
        count += 8;
    }
    'bytes: while count < bytes.len() && is_plain(bytes[count]) {
        count += 1;
    }
    count
}

/// A text in quotes and what follows it, if one comes first and has no escapes.
#[inline(always)]
pub(crate) fn quoted(bytes: &[u8]) -> Option<(&[u8], &[u8])>
    ensures { IfSome result (λ parts. IsQuoted bytes.now parts.0.now parts.1.now) }
{
    let text = after_byte(bytes, b'"')?;
    let count = plain_bytes(text);
    let after = after_byte(&text[count..], b'"')?;
    Some((&text[..count], after))
}

/// What follows this key with its colon, if it comes first.
#[inline(always)]
pub(crate) fn after_key<'a>(bytes: &'a [u8], name: &[u8]) -> Option<&'a [u8]>
    requires { All IsPlain name.now }
    ensures { IfSome result (λ rest. IsQuoted bytes.now name.now (58 ∷ rest.now)) }
{
    let text = after_byte(bytes, b'"')?;
    if text.len() < name.len() {
        return None;
    }
    let (start, after) = text.split_at(name.len());
    if start != name {
        return None;
    }
    let after = after_byte(after, b'"')?;
    let rest = after_byte(after, b':')?;
    Some(rest)
}

/// Below this number there is room for one digit more in 18.
const ROOM_LIMIT: u64 = 100_000_000_000_000_000;

/// The number that the digits at the start write and what follows them, if there are any, 18 at most, and no zero
/// before others.
#[inline(always)]
fn whole(bytes: &[u8]) -> Option<(u64, &[u8])>
    ensures { IfSome result (λ parts. IsWhole bytes.now parts.0 parts.1.now) }
{
    let mut value = 0u64;
    let mut count = 0;
    'digits: while value < ROOM_LIMIT && count < bytes.len() && bytes[count].is_ascii_digit() {
        value = value * 10 + (bytes[count] - b'0') as u64;
        count += 1;
    }
    if count == 0 || (count > 1 && bytes[0] == b'0') {
        return None;
    }
    Some((value, &bytes[count..]))
}

/// The number at the start, unless it is `-0` or has more than 18 digits, a point or an exponent, and what follows it.
#[inline(always)]
pub(crate) fn number(bytes: &[u8]) -> Option<(i64, &[u8])>
    ensures { IfSome result (λ parts. IsNumber bytes.now parts.0 parts.1.now) }
{
    match after_byte(bytes, b'-') {
        Some(digits) => {
            let (value, after) = whole(digits)?;
            if value == 0 {
                return None;
            }
            Some((-(value as i64), after))
        }
        None => {
            let (value, after) = whole(bytes)?;
            Some((value as i64, after))
        }
    }
}
