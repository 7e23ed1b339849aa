//! What is found of a run.
use judge_orders::Order;
use pd_report::{Answer, Report};

/// What is known of a run that was judged.
#[derive(Drop)]
pub(crate) struct Fresh {
    /// Its order.
    pub(crate) order: Order,
    /// Its answers, without evidence, if none is unknown.
    pub(crate) answers: Option<Vec<Answer>>,
}

/// What is found of a run: its report, and if it was judged, what is known of others of its order. `final_report`
/// gives the report that stands.
#[derive(Drop)]
pub struct Found {
    /// The report.
    pub(crate) report: Report,
    /// What is known by its judgement, if answers are shared and the run has any.
    pub(crate) fresh: Option<Fresh>,
}
