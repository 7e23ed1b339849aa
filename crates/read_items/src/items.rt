//! The items of a source.
ghost use Rattle.def_judgement.specs.Writes.{Source};
ghost use Rattle.pd_gather.specs.declared.read_fault.ReadFault.{ReadFault};
ghost use Rattle.read_items.specs.GivenItems.{BreaksOff, Gives, HasItems};
ghost use Rattle.std.specs.Prelude.{◌≡◌, Err, IfOk, List, ℕ};

use super::kept::Kept;
use pd_gather::{ByteSource, ReadFault};
use read_lines::{Line, Lines};
use std::alloc::Global;

/// The next item of a source of which these lines are left, or none if all items were given: its bytes, or that it is
/// long, which is over 67,108,864 bytes. What stands after the last line `===` is an item if it isn't empty.
///
/// # Errors
/// `Read` if a read fails, and `Memory`. The lines aren't used again then.
pub fn next_item<R: ByteSource + Drop>(
    alloc: Global,
    lines: &mut Lines<R>,
) -> Result<Option<Line>, ReadFault>
    ensures gives { IfOk result (λ found. Gives found lines.old lines.new) }
    ensures cause { result ≡ Err ReadFault.Read → (input : Source) (items : List (List ℕ)) →
        HasItems input items lines.old → BreaksOff input items }
{
    let mut kept = Kept::nothing(alloc);
    'lines: for _ in 0..u64::MAX {
        if lines.has_ended() {
            return Ok(kept.last_item());
        }
        let next = lines.next(alloc)?;
        match next {
            Some(line) => {
                if kept.take_line(&line, !lines.has_ended())? {
                    return Ok(Some(kept.item()));
                }
            }
            None => return Ok(kept.last_item()),
        }
    }
    Err(ReadFault::Memory)
}
