//! What a picture shows of a run beside the run.

/// What a picture shows of a run beside the run.
#[derive(Debug, Drop)]
pub enum Evidence {
    /// Nothing.
    Absent,
    /// A cut: a line across the processes, with what the variables are worth there, and an observation through it.
    Cut {
        /// How many events of each process are in the cut.
        counts: Vec<u64>,
        /// For each process a text that says what its variables are worth at the cut.
        values: Vec<String>,
        /// The process of each step of the observation, counted from 0.
        path: Vec<usize>,
    },
    /// An observation: the process of each step, counted from 0.
    Observation(Vec<usize>),
}
