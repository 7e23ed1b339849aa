//! A run whose files are open, up to what comes of it.
ghost use Rattle.app_test.specs.Jobs.{IsReady, IsResultOfJob};
ghost use Rattle.judge_runs.specs.Views.{wishes_view};
ghost use Rattle.pd_spec.specs.Views.{options_view};

use judge_bundles::trial_of_bundle;
use judge_runs::{Outcome, Wish};
use judge_session::EngineFault;
use judge_shared::{Orders, Trial, session_trial};
use pd_engine::{ByteSource, Crew, Gate};
use pd_spec::Options;
use std::alloc::Global;
use std::random::RandomSource;
use std::sync::Wait;
use std::thread::Threads;

/// What is left to do of a run once its files are open.
#[derive(Drop)]
pub(crate) enum Job<R> {
    /// Nothing: this comes of it.
    Done(Outcome),
    /// To judge the document of these bytes, and these streams, of which nothing is read.
    Judge(Vec<u8>, Vec<R>),
    /// To judge the bundle in the file of this name, of which nothing is read.
    Bundle(String, R),
}

/// What is known of a run whose files are open.
///
/// # Errors
/// `Memory`.
pub(crate) fn trial_of_job<
    S: RandomSource + Threads + Wait + Sync,
    R: ByteSource + Send + Drop,
    G: Gate + Sync,
>(
    crew: &Crew<'_, '_, S, G>,
    alloc: Global,
    options: &Options<'_>,
    wishes: &[Wish<'_>],
    orders: &Orders,
    job: Job<R>,
) -> Result<Trial, EngineFault>
    requires ready { IsReady R.has_ended job }
    ensures { IsResultOfJob R.left (options_view options.now) (wishes_view wishes.now) orders.now job result }
{
    match job {
        Job::Done(outcome) => Ok(Trial::Known(outcome)),
        Job::Judge(document, streams) => {
            session_trial(crew, alloc, options, orders, document, streams)
        }
        Job::Bundle(name, file) => {
            trial_of_bundle(crew, alloc, options, wishes, orders, name, file)
        }
    }
}
