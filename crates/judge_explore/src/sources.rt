//! Where the events of a session were recorded.
ghost use Rattle.def_format.specs.Records.{record_of};
ghost use Rattle.judge_explore.specs.EventLines.{EventsAreRecorded};
ghost use Rattle.judge_explore.specs.FileViews.{file_view, files_view};
ghost use Rattle.judge_explore.specs.Sources.{is_join_of, source_in, sources_of};
ghost use Rattle.out_page.specs.Views.{source_view, sources_view};
ghost use Rattle.pd_spec.specs.Views.{document_view};
ghost use Rattle.read_traces.specs.Views.{computation_view};
ghost use Rattle.std.specs.Prelude.{◌≡◌, take, IfOk, None};

use super::stream_file::StreamFile;
use out_page::Source;
use pd_events::{LineRecord, RecordFault, read_record};
use pd_spec::Spec;
use read_traces::Trace;
use std::alloc::{AllocError, Global};

/// Whether this file's first line joins this process.
fn joins(
    alloc: Global,
    spec: &Spec,
    process: usize,
    file: &StreamFile<'_>,
) -> Result<bool, AllocError>
    ensures { IfOk result (λ found. found ≡ is_join_of process
        (record_of (document_view spec.now).names None (file_view file.now).join)) }
{
    match read_record(alloc, spec, None, &file.join) {
        Ok(LineRecord::Join(other)) => Ok(other == process),
        Ok(_) => Ok(false),
        Err(RecordFault::Memory) => Err(AllocError),
        Err(_) => Ok(false),
    }
}

/// Where this many events were recorded in this file.
fn source_of<'a>(
    alloc: Global,
    file: &StreamFile<'a>,
    events: usize,
) -> Result<Source<'a>, AllocError>
    ensures { IfOk result (λ source. source_view source
        ≡ record { name = (file_view file.now).name; lines = take events (file_view file.now).lines }) }
{
    let count = events.min(file.lines.len());
    let lines = Vec::from_slice(alloc, &file.lines[..count])?;
    Ok(Source {
        name: file.name,
        lines,
    })
}

/// Where this many events of this process were recorded.
fn source_in<'a>(
    alloc: Global,
    spec: &Spec,
    process: usize,
    events: usize,
    files: &[StreamFile<'a>],
) -> Result<Source<'a>, AllocError>
    ensures { IfOk result (λ source. source_view source
        ≡ source_in (document_view spec.now).names process events (files_view files.now)) }
{
    let Some((file, others)) = files.split_first() else {
        return Ok(Source {
            name: "",
            lines: Vec::new(alloc),
        });
    };
    if joins(alloc, spec, process, file)? {
        return source_of(alloc, file, events);
    }
    source_in(alloc, spec, process, events, others)
}

/// Where the events of each process were recorded, in the order of the processes.
///
/// # Errors
/// Out of memory.
pub(crate) fn sources_of<'a>(
    alloc: Global,
    spec: &Spec,
    files: &[StreamFile<'a>],
    traces: &[Trace],
) -> Result<Vec<Source<'a>>, AllocError>
    ensures { IfOk result (λ sources. sources_view sources.items
        ≡ sources_of (document_view spec.now).names (files_view files.now) 0 (computation_view traces.now)) }
{
    let mut sources = Vec::with_capacity(alloc, traces.len())?;
    for process in 0..traces.len() {
        let events = traces[process].events.len();
        sources.push(source_in(alloc, spec, process, events, files)?)?;
    }
    Ok(sources)
}

/// The law of a stream's lines: the first that isn't blank joins the process, and each of the next ones records the
/// event that stands at its place, as many as there are. So the lines that a page gives are those of its events. It has
/// no code.
pub fn events_are_recorded()
    ensures { EventsAreRecorded }
{}
