//! The history with its rows, as it lies under the lock.
ghost use Rattle.std.specs.Prelude.{◌≡◌, ◌<◌, ◌++◌, [], ◌∷◌, true, length, IfOk, IfErr};
ghost use Rattle.def_format.specs.Histories.{rows_of};
ghost use Rattle.def_format.specs.HistoryLaws.{PassesAsLegal};
ghost use Rattle.pd_register.specs.Views.{history_view, rows_view};

use crate::post::Post;
use crate::row::Row;
use crate::snapshot::Snapshot;
use crate::step::Step;
use std::alloc::{AllocError, Global};

/// A legal history, with the rows of all streams in it.
#[derive(Drop)]
pub struct History {
    /// Which stream made which step, in order.
    pub posts: Vec<Post>,
    /// The row of each stream.
    pub rows: Vec<Row>,
    ghost shown: { rows_view rows.items ≡ rows_of (length rows.items) (history_view posts.items) },
    ghost legal: { PassesAsLegal (length rows.items) (history_view posts.items) },
}

impl History {
    ghost use Rattle.def_format.specs.Histories.{allows};
    ghost use Rattle.pd_register.specs.Views.{step_view, post_value, row_or_fresh};

    /// The history of this many streams without a step.
    pub fn new(alloc: Global, streams: u64) -> Result<History, AllocError>
        ensures { IfOk result (λ h. (h.posts.items ≡ []) × (length h.rows.items ≡ streams)) }
    {
        let mut rows = Vec::new(alloc);
        for _ in 0..streams {
            rows.push(Row::fresh())?;
        }
        Ok(History {
            posts: Vec::new(alloc),
            rows,
        })
    }

    /// The rows of all streams.
    pub fn snapshot(&self) -> Result<Snapshot, AllocError>
        ensures { IfOk result (λ s. s.rows.items ≡ self.now.rows.items) }
    {
        Ok(Snapshot {
            rows: self.rows.clone()?,
        })
    }

    /// Adds the stream's step, and gives the length that the history then has. Out of memory, it stays as it was.
    pub fn post(&mut self, stream: u64, step: Step) -> Result<u64, AllocError>
        requires stream { stream < length self.old.rows.items }
        requires allowed { allows (row_or_fresh self.old.rows.items stream) (step_view step) ≡ true }
        ensures posted { IfOk result (λ n. (n ≡ length self.new.posts.items)
            × (self.new.posts.items ≡ self.old.posts.items ++ post_value stream step ∷ [])) }
        ensures kept { IfErr result (λ _. (self.new.posts.items ≡ self.old.posts.items)
            × (self.new.rows.items ≡ self.old.rows.items)) }
        ensures rows { length self.new.rows.items ≡ length self.old.rows.items }
    {
        self.posts.push(Post { stream, step })?;
        let at = stream as usize;
        self.rows[at] = self.rows[at].after(step);
        Ok(self.posts.len() as u64)
    }
}
