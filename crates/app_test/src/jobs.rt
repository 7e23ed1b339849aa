//! Runs whose files are open, judged side by side.
ghost use Rattle.app_test.specs.Jobs.{IsReady, IsResultOfJob};
ghost use Rattle.def_format.specs.Limits.{worker_limit};
ghost use Rattle.judge_runs.specs.Views.{wishes_view};
ghost use Rattle.pd_spec.specs.Views.{options_view};
ghost use Rattle.std.specs.Prelude.{◌≡◌, ◌<◌, ◌≤◌, ℕ, All, IfOk, slice_index_or, vec_len};
ghost use Rattle.std.specs.Thread.{IsSync};

use super::job::{Job, trial_of_job};
use judge_runs::Wish;
use judge_session::EngineFault;
use judge_shared::{Orders, Trial};
use pd_engine::{ByteSource, Crew, Gate};
use pd_spec::Options;
use std::alloc::{AllocError, Global};
use std::random::RandomSource;
use std::sync::Wait;
use std::thread::{Threads, map_vec};

/// What is known of each of these runs, in their order. Each is judged in a thread of its own, if one can be had,
/// unless the answers of its order are known. The workers, from 1 to 16, and the gate change how long it takes, and
/// nothing of what comes of it.
///
/// # Errors
/// An allocation was refused; some runs may not have been judged then.
pub(crate) fn trials_of_jobs<
    S: RandomSource + Threads + Wait + Sync,
    R: ByteSource + Send + Drop,
    G: Gate + Sync,
>(
    rt: &S,
    alloc: &Global,
    options: &Options<'_>,
    wishes: &[Wish<'_>],
    workers: u64,
    gate: &G,
    orders: &Orders,
    jobs: Vec<Job<R>>,
) -> Result<Vec<Result<Trial, EngineFault>>, AllocError>
    requires ready { All (IsReady R.has_ended) jobs.items }
    requires some_workers { 1 ≤ workers }
    requires few_workers { workers ≤ worker_limit }
    ensures one_each { IfOk result (λ found. vec_len found ≡ vec_len jobs) }
    ensures found { IfOk result (λ found. (i : ℕ) (job : _) (one : _) → i < vec_len jobs
        → IsResultOfJob R.left (options_view options.now) (wishes_view wishes.now) orders.now
        (slice_index_or jobs.items i job) (slice_index_or found.items i one)) }
{
    map_vec(
        rt,
        jobs,
        &|job: Job<R>| -> Result<Trial, EngineFault>
            requires { IsSync S.row × IsSync G.row × IsReady R.has_ended job × (1 ≤ workers)
                × (workers ≤ worker_limit) }
            ensures { IsResultOfJob R.left (options_view options.entry.now) (wishes_view wishes.entry.now)
                orders.entry.now job result }
        {
            let crew = Crew::new(rt, workers, gate);
            trial_of_job(&crew, *alloc, options, wishes, orders, job)
        },
    )
}
