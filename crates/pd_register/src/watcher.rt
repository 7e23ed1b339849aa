//! The right to look at all streams' rows.
ghost use Rattle.std.specs.Prelude.{◌≡◌, [], ◌∷◌, false};
ghost use Rattle.def_format.specs.Histories.{fresh_row};
ghost use Rattle.pd_register.specs.Views.{row_value};

use crate::rule::TableSeat;

/// A seat that posts nothing. It stands for the number after the last stream's.
#[derive(Drop)]
pub struct Watcher {
    pub(crate) inner: TableSeat,
    ghost own: { (inner.me.0.rows ≡ (inner.me.0.streams, row_value fresh_row) ∷ []) × (inner.me.0.holds ≡ false)
        × (inner.me.1 ≡ []) },
}
