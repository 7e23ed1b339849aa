//! The line that says which line is at fault.
ghost use Rattle.app_merge.specs.Merges.{line_notice, wrong_words};
ghost use Rattle.app_merge.specs.Views.{wrong_view};
ghost use Rattle.std.specs.Prelude.{◌≡◌, IfOk};

use super::outcome::LineWrong;
use pd_report::{push_bytes, push_number};
use std::alloc::{AllocError, Global};

/// What is wrong with a line, in words.
fn wrong_words(wrong: LineWrong) -> &'static str
    ensures { result.now ≡ wrong_words (wrong_view wrong) }
{
    match wrong {
        LineWrong::Shape => " is no answer and no summary\n",
        LineWrong::Overflow => " has a sum over 18446744073709551615\n",
    }
}

/// The line that says what is wrong with the line of this number.
pub(crate) fn line_notice(
    alloc: Global,
    number: u64,
    wrong: LineWrong,
) -> Result<Vec<u8>, AllocError>
    ensures { IfOk result (λ line. line.items ≡ line_notice number (wrong_view wrong)) }
{
    let mut line = Vec::from_slice(alloc, b"monitor: line ")?;
    push_number(&mut line, number)?;
    push_bytes(&mut line, wrong_words(wrong).as_bytes())?;
    Ok(line)
}
