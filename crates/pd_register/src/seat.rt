//! The right to post the steps of one stream.
ghost use Rattle.std.specs.Prelude.{◌≡◌, ◌<◌, [], ◌∷◌, false};
ghost use Rattle.pd_register.specs.Views.{row_in};

use crate::row::{Row, RowState};
use crate::rule::TableSeat;
use crate::step::Step;

/// The right to post the steps of one stream.
#[derive(Drop)]
pub struct Seat {
    pub(crate) inner: TableSeat,
    pub(crate) stream: u64,
    pub(crate) row: Row,
    ghost own: { (inner.me.0.rows ≡ (stream, row) ∷ []) × (inner.me.0.holds ≡ false) × (inner.me.1 ≡ [])
        × (stream < inner.me.0.streams) },
    ghost shown: { row_in stream inner.me.0.seen ≡ row },
}

impl Seat {
    ghost use Rattle.def_format.specs.Histories.{fresh_row, allows};
    ghost use Rattle.pd_register.specs.Views.{row_value, row_state_view, step_view};
    ghost use Rattle.pd_register.specs.LockRule.{view};
    ghost use Rattle.pd_register.specs.Seats.{stream_of, posted_row};

    /// The seat of a stream that has made no step.
    pub(crate) fn fresh(inner: TableSeat, stream: u64) -> Seat
        requires me { inner.me ≡ (view inner.me.0.streams ((stream, row_value fresh_row) ∷ []) [] false, []) }
        requires stream { stream < inner.me.0.streams }
        ensures { (result.inner ≡ inner) × (stream_of result ≡ stream) × (posted_row result ≡ fresh_row) }
    {
        Seat {
            inner,
            stream,
            row: Row::fresh(),
        }
    }

    /// Whether the stream may make this step next.
    pub fn allows(&self, step: &Step) -> bool
        ensures { result ≡ allows (posted_row self.now) (step_view step.now) }
    {
        self.row.allows(step)
    }

    /// The stream, by number.
    pub fn stream(&self) -> u64
        ensures { result ≡ stream_of self.now }
    {
        self.stream
    }

    /// How many events were posted with this seat.
    pub fn events(&self) -> u64
        ensures { result ≡ (posted_row self.now).events }
    {
        self.row.events
    }

    /// Where the stream stands after this seat's posts.
    pub fn state(&self) -> RowState
        ensures { row_state_view result ≡ (posted_row self.now).state }
    {
        self.row.state
    }
}
