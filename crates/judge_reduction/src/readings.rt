//! What streams that were made come to.
ghost use Rattle.def_judgement.specs.Writes.{whole_source};
ghost use Rattle.judge_reduction.specs.ReadSessions.{AreTracesOf};
ghost use Rattle.judge_reduction.specs.ReducedSessions.{texts_view};
ghost use Rattle.pd_gather.specs.Views.{traces_view};
ghost use Rattle.pd_spec.specs.Views.{document_view};
ghost use Rattle.read_traces.specs.SessionTraces.{AreTraces};
ghost use Rattle.std.specs.Prelude.{◌≡◌, IfOk, map};

use judge_session::{Unanswered, traces_of};
use pd_gather::{WholeBytes, read_streams};
use pd_spec::Spec;
use read_traces::Trace;
use std::alloc::{AllocError, Global};
use std::sync::Wait;
use std::thread::Threads;

/// A reader of the bytes of each stream.
///
/// # Errors
/// An allocation was refused.
fn readers_of<'a>(alloc: Global, streams: &'a [Vec<u8>]) -> Result<Vec<WholeBytes<'a>>, AllocError>
    ensures { IfOk result (λ readers. map (λ reader. whole_source reader.rest.now) readers.items
        ≡ map (λ bytes. whole_source bytes.items) streams.now) }
{
    let mut readers = Vec::new(alloc);
    for bytes in streams {
        readers.push(WholeBytes::new(bytes))?;
    }
    Ok(readers)
}

/// The traces of streams with this document, one for each process, in their order.
///
/// # Errors
/// `Refused` if the streams are refused, and `Memory`.
pub(crate) fn made_traces<S: Threads + Wait + Sync>(
    rt: &S,
    alloc: Global,
    made: &Spec,
    streams: &[Vec<u8>],
) -> Result<Vec<Trace>, Unanswered>
    ensures joined { IfOk result (λ traces. AreTracesOf (document_view made.now).names (texts_view streams.now)
        (traces_view traces.items)) }
    ensures fit { IfOk result (λ traces. AreTraces (document_view made.now).names traces.items) }
{
    let readers = readers_of(alloc, streams)?;
    let gathered = read_streams(rt, alloc, made, readers)?;
    let traces = traces_of(alloc, made, gathered)?;
    Ok(traces)
}
