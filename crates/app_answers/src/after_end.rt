//! How many lines stand after an end line.
ghost use Rattle.app_text.specs.Lines.{records};
ghost use Rattle.std.specs.Prelude.{◌≡◌, ◌-◌, ◌^◌, length, min};

use app_text::next_record;

/// How many records there are; blank lines are none.
fn count_records(bytes: &[u8]) -> u64
    ensures { result ≡ min (length (records bytes.now)) (2 ^ 64 - 1) }
{
    let mut rest = bytes;
    let mut line = 0u64;
    for count in 0..u64::MAX {
        let Some(found) = next_record(rest, line) else {
            return count;
        };
        rest = found.after;
        line = found.line;
    }
    u64::MAX
}

/// How many records stand after the first ones, of which there are this many; blank lines are no records.
pub fn records_after(bytes: &[u8], passed: u64) -> u64
    ensures { result ≡ min (length (records bytes.now)) (2 ^ 64 - 1) - passed }
{
    count_records(bytes).saturating_sub(passed)
}
