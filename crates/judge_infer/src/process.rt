//! What a stream says of its process.
ghost use Rattle.def_format.specs.Lines.{all_lines};
ghost use Rattle.judge_infer.specs.Inferred.{after_lines, fresh, process_of, stream_process};
ghost use Rattle.judge_infer.specs.Views.{IsDueBy, process_view, stage_view};
ghost use Rattle.std.specs.Prelude.{◌≡◌};

use super::AddFault;
use super::fault::{Wrong, stream_fault};
use super::lines::first_line;
use super::stage::Stage;
use def_format::STREAM_BYTE_LIMIT;
use std::alloc::Global;

/// What a stream says of its process.
#[derive(Drop)]
pub(crate) struct Process {
    /// Its name.
    pub(crate) name: String,
    /// The variables that its events set, in the order in which each is first set.
    pub(crate) vars: Vec<String>,
    /// The ids of the messages that its events receive.
    pub(crate) received: Vec<String>,
}

/// What all lines of the bytes say.
#[tactic(auto, using(crate::proofs::LineSteps::line_steps))]
fn read_lines(alloc: Global, bytes: &[u8]) -> Result<Stage, AddFault>
    ensures { IsDueBy stage_view (after_lines fresh 1 (all_lines bytes.now)) result }
{
    let mut stage = Stage::new(alloc);
    let mut rest = bytes;
    let mut number = 1u64;
    'lines: while let Some((line, following)) = first_line(rest) {
        stage.take(alloc, number, line)?;
        rest = following;
        number += 1;
    }
    if !rest.is_empty() {
        stage.take(alloc, number, rest)?;
    }
    Ok(stage)
}

/// What a stream says by what its lines say.
fn process_of(stage: Stage) -> Result<Process, AddFault>
    ensures { IsDueBy process_view (process_of (stage_view stage) (stage_view stage).process) result }
{
    let Stage {
        process,
        vars,
        received,
        events: _,
        cut: _,
        is_ended: _,
    } = stage;
    match process {
        Some(name) => Ok(Process {
            name,
            vars,
            received,
        }),
        None => Err(stream_fault(Wrong::NoLine)),
    }
}

/// What the bytes of a stream say. They may have no end line, and the last line may be cut short.
///
/// # Errors
/// The first fault, or out of memory.
#[tactic(auto, unfolding(crate::specs::Inferred::stream_process))]
pub(crate) fn read_process(alloc: Global, bytes: &[u8]) -> Result<Process, AddFault>
    ensures { IsDueBy process_view (stream_process bytes.now) result }
{
    if bytes.len() as u64 > STREAM_BYTE_LIMIT {
        return Err(stream_fault(Wrong::StreamTooLong));
    }
    let stage = read_lines(alloc, bytes)?;
    process_of(stage)
}
