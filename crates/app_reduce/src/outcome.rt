//! What comes of a recorded run.
use super::counts::Counts;
use judge_reduction::ReducedSession;
use pd_report::Report;
use pd_spec::Spec;

/// A session that has the answers of a run, and the run.
#[derive(Drop)]
pub struct MadeSession {
    /// The run's document.
    pub spec: Spec,
    /// What the run has.
    pub run: Counts,
    /// The session.
    pub session: ReducedSession,
    /// For each process of the run the numbers of its kept events, counted from 1, which ascend.
    pub numbers: Vec<Vec<u64>>,
}

/// What comes of a recorded run.
#[derive(Drop)]
pub enum Outcome {
    /// The run is refused, by this report.
    Refused(Report),
    /// No session can be made of the run, which has these.
    Unmade(Counts),
    /// A session that has the answers of the run.
    Made(MadeSession),
}
