//! The cuts of a computation at which each process is at a good count, and the steps from the least of them to each
//! other one.
//!
//! - *Points.* A process has in each cut of the slice the count of the least cut, or that of one of its points. A point
//!   has the least cut of the slice at which the process has this count or more. It is found from that of the point
//!   before.
//! - *Steps.* A step stands for a point, and its past is the point's cut. The cuts of the slice are the joins of the
//!   least cut and of the pasts of closed sets of steps.
//! - *Idle points.* For the greatest sum a point is passed over if its count stands in the past of no point of another
//!   process, and if its process adds no more there than at a kept count before. What a kept step adds is counted from
//!   the kept one before.
//!
//! Its modules:
//! - `good_from`: the counts of one process from one on
//! - `past`: the counts of a cut, in as little memory as they take
//! - `points`: the points of each process
//! - `asked`: the counts that stand in the past of a point of another process
//! - `kept`: the steps of one process
//! - `slice`: the whole
#![tactic(auto)]

mod asked;
mod good_from;
mod kept;
mod past;
mod points;
mod slice;

pub use slice::{Slice, slice_of, steps_of};
