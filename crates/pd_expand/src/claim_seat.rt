//! One worker's right to draw blocks.
ghost use Rattle.std.specs.Prelude.{◌≡◌, [], ltb, ◌↔◌, IsTrue};
ghost use Rattle.pd_expand.specs.ClaimRule.{past};

use crate::rule::TableSeat;

/// One worker's right to draw blocks. Contracts see it as the list of the numbers that it drew.
#[derive(Drop)]
pub struct ClaimSeat {
    pub(crate) inner: TableSeat,
    pub(crate) blocks: u64,
    pub(crate) is_done: bool,
    ghost one_worker: { (inner.me.0.workers ≡ 1) × (inner.me.1 ≡ []) },
    ghost noted: { is_done ≡ ltb 0 (past blocks inner.me.0.drawn) },
}

impl ClaimSeat {
    ghost use Rattle.pd_expand.specs.ClaimRule.{view};
    ghost use Rattle.pd_expand.specs.Claims.{IsDone};

    /// The seat of one worker that drew nothing.
    pub(crate) fn fresh(inner: TableSeat, blocks: u64) -> ClaimSeat
        requires { inner.me ≡ (view 1 [], []) }
        ensures { (result.inner ≡ inner) × (result.blocks ≡ blocks) }
    {
        ClaimSeat {
            inner,
            blocks,
            is_done: false,
        }
    }

    /// How many blocks there are.
    pub(crate) fn blocks(&self) -> u64
        ensures { result ≡ self.now.blocks }
    {
        self.blocks
    }

    /// Whether the seat drew a number past the last block's: there is nothing left to draw.
    pub fn done(&self) -> bool
        ensures { IsTrue result ↔ IsDone self.now }
    {
        self.is_done
    }
}
