//! Answers the entries of an input, round by round.
ghost use Rattle.app_arguments.specs.ConditionViews.{fail_on_view};
ghost use Rattle.app_batch.specs.Batches.{BatchLeaves};
ghost use Rattle.app_test.specs.Tests.{test_ending};
ghost use Rattle.app_batch.specs.Rounds.{HasAnswered, IsRoundCut, IsRoundWritten};
ghost use Rattle.def_format.specs.Limits.{worker_limit};
ghost use Rattle.def_judgement.specs.Writes.{Source};
ghost use Rattle.pd_spec.specs.Views.{options_view};
ghost use Rattle.std.specs.Io.KnownBytes.{Appends, Keeps};
ghost use Rattle.std.specs.Prelude.{◌≡◌, ◌≤◌, ◌<◌, ◌^◌, ◌+◌, ◌⊎◌, IfErr, IfOk, IsOkUnless, List, OnErr, Option, false, length, take, true, ℕ};

use super::asked::Asked;
use super::found::Found;
use super::round::{answer_round, read_round, round_text};
use app_host::write_flushed;
use judge_runs::Conclusion;
use judge_session::EngineFault;
use pd_engine::ByteSource;
use read_lines::{Line, Lines};
use std::alloc::Global;
use std::io::Write;
use std::random::RandomSource;
use std::sync::Wait;
use std::thread::Threads;

/// How far a batch has come: how many entries are answered, and what is found in the answers.
#[derive(Clone, Copy)]
struct Progress {
    number: u64,
    found: Found,
}

/// The number of entries with those of a round, if they can be counted.
fn counted(number: u64, round: &[Line]) -> Result<u64, EngineFault>
    ensures all { IfOk result (λ all. (all ≡ number + length round.now) × (all + 1 < 2 ^ 64)) }
    ensures err { IsOkUnless result EngineFault.Memory }
{
    match number.checked_add(round.len() as u64) {
        Some(all) => {
            if all == u64::MAX {
                return Err(EngineFault::Memory);
            }
            Ok(all)
        }
        None => Err(EngineFault::Memory),
    }
}

/// Answers the entries of a round, and writes what is written of them. It gives how far the batch has come then.
///
/// # Errors
/// `Memory` leaves nothing written. `Write` leaves a prefix of what is written of these entries, or all of it if only
/// the flush failed.
fn write_round<S: RandomSource + Threads + Wait + Sync, O: Write>(
    rt: &S,
    alloc: Global,
    progress: Progress,
    round: &[Line],
    asked: &Asked<'_>,
    jobs: usize,
    output: &mut O,
) -> Result<Progress, EngineFault>
    requires jobs { 1 ≤ jobs }
    requires some_workers { 1 ≤ asked.now.workers }
    requires few_workers { asked.now.workers ≤ worker_limit }
    ensures written { IfOk result (λ then. IsRoundWritten (options_view asked.now.options.now)
        (fail_on_view asked.now.fail_on.now) asked.now.in_bundles progress.number progress.found round.now then.number
        then.found
        (O.contents output.old) (O.contents output.new)) }
    ensures left { OnErr result (Keeps (O.contents output.old) (O.contents output.new)
        ⊎ IsRoundCut (options_view asked.now.options.now) (fail_on_view asked.now.fail_on.now)
        asked.now.in_bundles progress.number round.now (O.contents output.old) (O.contents output.new)) }
    ensures err { IfErr result (λ fault. (fault ≡ EngineFault.Memory) ⊎ (fault ≡ EngineFault.Write)) }
{
    let number = counted(progress.number, round)?;
    let results = answer_round(rt, alloc, progress.number + 1, round, asked, jobs)?;
    let (text, found) = round_text(alloc, &results, progress.found)?;
    write_flushed(&text, output)?;
    Ok(Progress { number, found })
}

/// Judges the sessions in the lines of an input, or in its bundles, and writes a line of each, in their order. So many
/// are judged side by side; with one job each is answered, and the output flushed, before the next one is read. It
/// gives what they come to together.
///
/// # Errors
/// `Read` if a read fails, `Memory`, and `Write`. What is written of those before is left, and after `Write` a part
/// of what comes next.
pub fn batch_lines<S: RandomSource + Threads + Wait + Sync, R: ByteSource + Drop, O: Write>(
    rt: &S,
    alloc: Global,
    input: R,
    asked: &Asked<'_>,
    jobs: u64,
    output: &mut O,
) -> Result<Conclusion, EngineFault>
    requires open { R.has_ended input ≡ false }
    requires some_jobs { 1 ≤ jobs }
    requires some_workers { 1 ≤ asked.now.workers }
    requires few_workers { asked.now.workers ≤ worker_limit }
    ensures { BatchLeaves (R.left input) (options_view asked.now.options.now) (fail_on_view asked.now.fail_on.now)
        asked.now.in_bundles (test_ending result) (O.contents output.old) (O.contents output.new) }
{
    let mut lines = Lines::new(alloc, input)?;
    let mut progress = Progress {
        number: 0,
        found: Found::nothing(),
    };
    'rounds: for _ in 0..u64::MAX {
        let round = read_round(alloc, &mut lines, asked.in_bundles, jobs as usize)?;
        if round.len() == 0 {
            return Ok(progress.found.conclusion());
        }
        progress = write_round(rt, alloc, progress, &round, asked, jobs as usize, output)?;
    }
    Err(EngineFault::Memory)
}
