//! What is known of a stream, and how a step changes it.
ghost use Rattle.std.specs.Prelude.{◌≡◌, true};

use crate::step::Step;
use def_format::EVENT_LIMIT;

/// Where a stream stands.
#[derive(Clone, Copy, Debug, PartialEq, Eq)]
pub enum RowState {
    /// It has made no step.
    Fresh,
    /// It has joined a process, and may go on.
    Joined,
    /// It has ended.
    Ended,
    /// It is at fault.
    Faulted,
}

/// What is known of a stream.
#[derive(Clone, Copy, Debug, PartialEq, Eq)]
pub struct Row {
    /// The process that it joined, by number.
    pub process: Option<usize>,
    /// How many events it has had.
    pub events: u64,
    /// Where it stands.
    pub state: RowState,
}

impl Row {
    ghost use Rattle.def_format.specs.Histories.{fresh_row, allows, row_after};
    ghost use Rattle.pd_register.specs.Views.{row_view, step_view};

    /// The row of a stream that has made no step.
    pub(crate) fn fresh() -> Row
        ensures { row_view result ≡ fresh_row }
    {
        Row {
            process: None,
            events: 0,
            state: RowState::Fresh,
        }
    }

    /// Whether a stream with this row may make this step next.
    pub(crate) fn allows(&self, step: &Step) -> bool
        ensures { result ≡ allows (row_view self.now) (step_view step.now) }
    {
        match (self.state, step) {
            (RowState::Fresh, Step::Join(_)) => true,
            (RowState::Fresh, Step::Fault) => true,
            (RowState::Joined, Step::Event) => self.events < EVENT_LIMIT as u64,
            (RowState::Joined, Step::End) => true,
            (RowState::Joined, Step::Fault) => true,
            _ => false,
        }
    }

    /// The row after the step.
    pub(crate) fn after(&self, step: Step) -> Row
        requires { allows (row_view self.now) (step_view step) ≡ true }
        ensures { row_view result ≡ row_after (row_view self.now) (step_view step) }
    {
        match step {
            Step::Join(process) => Row {
                process: Some(process),
                events: self.events,
                state: RowState::Joined,
            },
            Step::Event => Row {
                process: self.process,
                events: self.events + 1,
                state: self.state,
            },
            Step::End => Row {
                process: self.process,
                events: self.events,
                state: RowState::Ended,
            },
            Step::Fault => Row {
                process: self.process,
                events: self.events,
                state: RowState::Faulted,
            },
        }
    }
}
