//! The streams of a session at one place: too many of them are not read.
ghost use Rattle.pd_gather.specs.ReadStreams.{ComesTo};
ghost use Rattle.pd_gather.specs.Views.{ReadingFits, results_view};
ghost use Rattle.def_judgement.specs.Judgements.{RawStream};
ghost use Rattle.def_judgement.specs.Writes.{IsGivenAs};
ghost use Rattle.pd_spec.specs.Views.{document_view};
ghost use Rattle.std.specs.List.{AllZip};
ghost use Rattle.std.specs.Prelude.{◌≡◌, false, List, All, IfOk, map};

use super::byte_source::ByteSource;
use super::gather_fault::GatherFault;
use super::gathered::Gathered;
use super::observer::{NoObserver, Observer};
use super::unread::unread_streams;
use super::watching::gather_by;
use pd_register::Register;
use pd_spec::Spec;
use std::alloc::Global;
use std::sync::Wait;
use std::thread::Threads;

/// Reads the streams of a session: makes a register with a seat for each, reads each on its own thread, and closes the
/// register. If there are too many streams, none is read, and no register is made.
///
/// # Errors
/// If memory runs out.
pub fn read_streams<T: Threads + Wait + Sync, R: ByteSource + Send + Drop>(
    rt: &T,
    alloc: Global,
    spec: &Spec,
    readers: Vec<R>,
) -> Result<Gathered, GatherFault>
    requires open { All (λ r. R.has_ended r ≡ false) readers.items }
    ensures given { IfOk result (λ gathered. (streams : List RawStream)
        × AllZip IsGivenAs (map R.left readers.items) streams
        × ComesTo (document_view spec.now).names streams gathered.streams (results_view gathered.readings.items)) }
    ensures fit { IfOk result (λ gathered. All (ReadingFits (document_view spec.now).names) gathered.readings.items) }
{
    read_streams_watched(rt, alloc, spec, readers, None::<&NoObserver>)
}

/// Reads the streams of a session as `read_streams` does, while the observer, if there is one, watches the register on
/// one thread more. It returns once the observer has returned. If there are too many streams, the observer isn't run.
///
/// # Errors
/// If memory runs out.
pub fn read_streams_watched<
    T: Threads + Wait + Sync,
    R: ByteSource + Send + Drop,
    O: Observer + Sync,
>(
    rt: &T,
    alloc: Global,
    spec: &Spec,
    readers: Vec<R>,
    observer: Option<&O>,
) -> Result<Gathered, GatherFault>
    requires open { All (λ r. R.has_ended r ≡ false) readers.items }
    ensures given { IfOk result (λ gathered. (streams : List RawStream)
        × AllZip IsGivenAs (map R.left readers.items) streams
        × ComesTo (document_view spec.now).names streams gathered.streams (results_view gathered.readings.items)) }
    ensures fit { IfOk result (λ gathered. All (ReadingFits (document_view spec.now).names) gathered.readings.items) }
{
    if let Some(unread) = unread_streams(alloc, readers.len()) {
        return Ok(unread);
    }
    let (register, mut seats, mut watcher) = Register::new(alloc, readers.len() as u64)?;
    let lent = seats.as_mut_slice();
    let gathered = gather_by(
        rt,
        alloc,
        spec,
        readers,
        &register,
        lent,
        &mut watcher,
        observer,
    )?;
    register.close(seats, watcher);
    Ok(gathered)
}
