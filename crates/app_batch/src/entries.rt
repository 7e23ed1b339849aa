//! The entries of an input: its lines, or its bundles.
ghost use Rattle.app_batch.specs.Entries.{EntriesBreakOff, GivesEntry, HasEntries};
ghost use Rattle.def_judgement.specs.Writes.{Source};
ghost use Rattle.pd_gather.specs.declared.read_fault.ReadFault.{ReadFault};
ghost use Rattle.std.specs.Prelude.{◌≡◌, Err, IfOk, List, ℕ};

use pd_gather::{ByteSource, ReadFault};
use read_items::next_item;
use read_lines::{Line, Lines};
use std::alloc::Global;

/// The next entry of a source of which these lines are left, or none if all were given.
///
/// # Errors
/// `Read` if a read fails, and `Memory`. The lines aren't used again then.
pub(crate) fn next_entry<R: ByteSource + Drop>(
    alloc: Global,
    lines: &mut Lines<R>,
    in_bundles: bool,
) -> Result<Option<Line>, ReadFault>
    ensures gives { IfOk result (λ found. GivesEntry in_bundles found lines.old lines.new) }
    ensures cause { result ≡ Err ReadFault.Read → (input : Source) (given : List (List ℕ)) →
        HasEntries in_bundles input given lines.old → EntriesBreakOff in_bundles input given }
{
    if in_bundles {
        return next_item(alloc, lines);
    }
    lines.next(alloc)
}
