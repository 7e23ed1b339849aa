//! The ids of messages.
ghost use Rattle.judge_reduced.specs.Plans.{message_id};
ghost use Rattle.std.specs.Prelude.{◌≡◌, ◌≤◌, IfOk};

use std::alloc::{AllocError, Global};

/// The id of the message that the kept event of this rank sends, counted from 0 in process `p`: a letter for the
/// process, and four digits.
///
/// # Errors
/// An allocation was refused.
pub(crate) fn id_of(alloc: Global, p: usize, rank: usize) -> Result<Vec<u8>, AllocError>
    requires process { p ≤ 128 }
    requires rank { rank ≤ 65535 }
    ensures { IfOk result (λ id. id.items ≡ message_id p rank) }
{
    let mut id = Vec::with_capacity(alloc, 5)?;
    id.push((97 + p) as u8)?;
    id.push((48 + rank / 1000) as u8)?;
    id.push((48 + rank / 100 % 10) as u8)?;
    id.push((48 + rank / 10 % 10) as u8)?;
    id.push((48 + rank % 10) as u8)?;
    Ok(id)
}
