//! A round: some entries, which are read, answered side by side, and put together.
ghost use Rattle.app_arguments.specs.ConditionViews.{fail_on_view};
ghost use Rattle.app_batch.specs.Answers as answers;
ghost use Rattle.app_batch.specs.Answers.{IsAnswer};
ghost use Rattle.app_batch.specs.Batches.{text_of_answers};
ghost use Rattle.app_batch.specs.Entries.{EntriesBreakOff, HasEntries, IsEntry, entry_said};
ghost use Rattle.app_batch.specs.Rounds.{AreResults, IsFoundIn, IsMade, IsRound};
ghost use Rattle.app_batch.specs.Views.{answer_view};
ghost use Rattle.def_format.specs.Limits.{worker_limit};
ghost use Rattle.def_judgement.specs.Writes.{Source};
ghost use Rattle.judge_session.specs.declared.fault.EngineFault.TheVariants as faults;
ghost use Rattle.pd_spec.specs.Views.{options_view};
ghost use Rattle.std.specs.List.{AllZip};
ghost use Rattle.std.specs.Prelude.{◌≡◌, ◌+◌, ◌<◌, ◌≤◌, ◌^◌, ◌++◌, ◌⊎◌, Err, IfErr, IfOk, IsOkUnless, List, Some, length, slice_get, ℕ};

use super::answer::Answer;
use super::answers::entry_answer;
use super::asked::Asked;
use super::entries::next_entry;
use super::found::Found;
use judge_session::EngineFault;
use pd_engine::ByteSource;
use pd_gather::ReadFault;
use pd_report::push_bytes;
use read_lines::{Line, Lines};
use std::alloc::{AllocError, Global};
use std::random::RandomSource;
use std::sync::Wait;
use std::thread::Threads;
use walk_keys::values_of;

/// How many entries each job has in a round at most.
const LINES_PER_JOB: usize = 1_024;

/// How many bytes of entries each job has in a round, from which on none is added but the first of each job.
const BYTES_PER_JOB: usize = 1_048_576;

/// How many entries a round has at most, for so many jobs.
fn most_lines(jobs: usize) -> usize
    requires { 1 ≤ jobs }
    ensures { 1 ≤ result }
{
    if jobs == 1 {
        return 1;
    }
    jobs.saturating_mul(LINES_PER_JOB)
}

/// The bytes that an entry takes.
fn bytes_of(entry: &Line) -> usize {
    match entry {
        Line::Whole(bytes) => bytes.len(),
        Line::Long => 0,
    }
}

/// The fault of a read, as the engine's.
fn fault_of(fault: ReadFault) -> EngineFault
    ensures read { result ≡ EngineFault.Read → fault ≡ ReadFault.Read }
    ensures kind { (result ≡ EngineFault.Read) ⊎ (result ≡ EngineFault.Memory) }
{
    match fault {
        ReadFault::Read => EngineFault::Read,
        ReadFault::Memory => EngineFault::Memory,
    }
}

/// The next entries, for so many jobs: one each if there are so many, and more as long as they are short. With one job
/// it is one entry, so that each is answered before the next one is read.
///
/// # Errors
/// `Read` if a read fails, and `Memory`.
pub(crate) fn read_round<R: ByteSource + Drop>(
    alloc: Global,
    lines: &mut Lines<R>,
    in_bundles: bool,
    jobs: usize,
) -> Result<Vec<Line>, EngineFault>
    requires { 1 ≤ jobs }
    ensures round { IfOk result (λ round. (input : Source) (before : List (List ℕ))
        → HasEntries in_bundles input before lines.old → IsRound in_bundles round.items input before lines.new) }
    ensures cause { result ≡ Err EngineFault.Read → (input : Source) (before : List (List ℕ))
        → HasEntries in_bundles input before lines.old
        → (more : List (List ℕ)) × EntriesBreakOff in_bundles input (before ++ more) }
    ensures err { IfErr result (λ fault. (fault ≡ EngineFault.Read) ⊎ (fault ≡ EngineFault.Memory)) }
{
    let enough = jobs.saturating_mul(BYTES_PER_JOB);
    let mut round = Vec::new(alloc);
    let mut bytes = 0usize;
    'lines: for _place in 0..most_lines(jobs) {
        match next_entry(alloc, lines, in_bundles) {
            Ok(Some(line)) => {
                bytes = bytes.saturating_add(bytes_of(&line));
                round.push(line)?;
                if bytes >= enough && round.len() >= jobs {
                    return Ok(round);
                }
            }
            Ok(None) => return Ok(round),
            Err(fault) => return Err(fault_of(fault)),
        }
    }
    Ok(round)
}

/// What is written of the entry at this place of a round, of which the first has this number.
fn answer_at<S: RandomSource + Threads + Wait + Sync>(
    rt: &S,
    alloc: Global,
    first: u64,
    round: &[Line],
    place: usize,
    asked: &Asked<'_>,
) -> Result<Answer, EngineFault>
    requires place { place < length round.now }
    requires fits { first + length round.now < 2 ^ 64 }
    requires some_workers { 1 ≤ asked.now.workers }
    requires few_workers { asked.now.workers ≤ worker_limit }
    ensures answer { IfOk result (λ answer. (line : Line) → slice_get round.now place ≡ Some line
        → (bytes : List ℕ) → IsEntry asked.now.in_bundles line bytes → IsAnswer (options_view asked.now.options.now)
        (fail_on_view asked.now.fail_on.now) (first + place)
        (entry_said asked.now.in_bundles (first + place) bytes) (answer_view answer)) }
    ensures err { IsOkUnless result EngineFault.Memory }
{
    entry_answer(rt, alloc, first + place as u64, &round[place], asked)
}

/// What is written of each entry of a round, of which the first has this number, or why that isn't made; by at most
/// this many threads, which draw the entries.
///
/// # Errors
/// An allocation was refused.
pub(crate) fn answer_round<S: RandomSource + Threads + Wait + Sync>(
    rt: &S,
    alloc: Global,
    first: u64,
    round: &[Line],
    asked: &Asked<'_>,
    jobs: usize,
) -> Result<Vec<Result<Answer, EngineFault>>, AllocError>
    requires jobs { 1 ≤ jobs }
    requires fits { first + length round.now < 2 ^ 64 }
    requires some_workers { 1 ≤ asked.now.workers }
    requires few_workers { asked.now.workers ≤ worker_limit }
    ensures { IfOk result (λ results. AreResults (options_view asked.now.options.now)
        (fail_on_view asked.now.fail_on.now) asked.now.in_bundles first round.now results.items) }
{
    let results = values_of(
        rt,
        jobs,
        alloc,
        round.len(),
        &|place: usize| -> Result<Answer, EngineFault>
            requires { (place < length round.now) × (first + length round.now < 2 ^ 64)
                × (1 ≤ asked.now.workers) × (asked.now.workers ≤ worker_limit) }
            ensures { IfOk result (λ answer. (line : Line) → slice_get round.entry.now place ≡ Some line
                → (bytes : List ℕ) → IsEntry asked.entry.now.in_bundles line bytes
                → IsAnswer (options_view asked.entry.now.options.now) (fail_on_view asked.entry.now.fail_on.now)
                (first + place) (entry_said asked.entry.now.in_bundles (first + place) bytes)
                (answer_view answer)) }
        { answer_at(rt, alloc, first, round, place, asked) },
    )?;
    Ok(results)
}

/// The text of the answers of a round, one after another, and what is found with them too.
///
/// # Errors
/// `Memory`, also if it is why an answer wasn't made.
pub(crate) fn round_text(
    alloc: Global,
    results: &[Result<Answer, EngineFault>],
    found: Found,
) -> Result<(Vec<u8>, Found), EngineFault>
    ensures text { IfOk result (λ made. (due : List answers.Answer) × AllZip IsMade results.now due
        × (made.0.items ≡ text_of_answers due) × ((before : List answers.Answer) → IsFoundIn before found
        → IsFoundIn (before ++ due) made.1)) }
    ensures err { IsOkUnless result EngineFault.Memory }
{
    let mut text = Vec::new(alloc);
    let mut all = found;
    for result in results {
        match result {
            Ok(answer) => {
                push_bytes(&mut text, &answer.line)?;
                all = all.with(answer.status);
            }
            Err(_) => return Err(EngineFault::Memory),
        }
    }
    Ok((text, all))
}
