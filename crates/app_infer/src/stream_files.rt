//! Reads the streams, and writes their document.
ghost use Rattle.app_infer.specs.Inferences.{InferLeaves, IsRefusedFor, IsStreamOf, refused_line};
ghost use Rattle.app_infer.specs.Outcomes.{IsSaidIn};
ghost use Rattle.judge_infer.specs.Inferred.{fault_words, stream_process, worded};
ghost use Rattle.judge_infer.specs.Streams.{Process};
ghost use Rattle.judge_infer.specs.Views.{stream_fault_view};
ghost use Rattle.std.specs.Io.KnownBytes.{Appends};
ghost use Rattle.std.specs.List.{AllZip};
ghost use Rattle.std.specs.Prelude.{◌≡◌, ◌⊎◌, ◌≤◌, ◌++◌, ◌∷◌, [], All, Err, IfErr, IfNone, IfOk, IfSome, IsOkUnless, OnErr, OnOk, Some, length, map, slice_index_or, take, ℕ, true, false};

use super::outcome::InferOutcome;
use super::refusals::{document_refusal, name_at, stream_refusal};
use app_host::{System, World, open_noted};
use def_format::STREAM_BYTE_LIMIT;
use judge_infer::{AddFault, Session, StreamFault};
use judge_session::{EngineFault, read_upto};
use pd_report::write_all;
use std::io::Write;

/// The bytes of the stream in the file of this name, which is at this place among the names. Of one that is longer than
/// `STREAM_BYTE_LIMIT` a byte more than that is read: it is refused by these as it is by all of them.
///
/// # Errors
/// `Read`, if the file can't be opened or read, and `Memory`.
fn read_stream<Y: System>(
    world: &World<'_, Y>,
    name: &str,
    place: usize,
) -> Result<Vec<u8>, EngineFault>
    ensures read { IfOk result (λ bytes. IsStreamOf (Y.Files.file_of world.now.files.now name.now).source
        (worded (stream_process bytes.items))) }
    ensures sure { (Y.Files.file_of world.now.files.now name.now).opens ≡ true
        → (Y.Files.file_of world.now.files.now name.now).source.fails ≡ Some false
        → result ≡ Err EngineFault.Read → ⊥ }
    ensures err { IfErr result (λ fault. (fault ≡ EngineFault.Memory) ⊎ (fault ≡ EngineFault.Read)) }
{
    let file = open_noted(world.alloc, world.files, name, world.notes.stream(place))?;
    read_upto(world.alloc, file, STREAM_BYTE_LIMIT as usize)
}

/// Reads the stream in the file of this name, and adds it; or gives its fault.
///
/// # Errors
/// `Read`, if the file can't be opened or read, and `Memory`.
fn add_stream<Y: System>(
    world: &World<'_, Y>,
    name: &str,
    place: usize,
    session: &mut Session,
) -> Result<Option<StreamFault>, EngineFault>
    ensures added { IfOk result (λ found. IfNone found ((process : Process)
        × IsSaidIn (Y.Files.file_of world.now.files.now) name.now process
        × (session.new ≡ session.old ++ process ∷ []))) }
    ensures refused { IfOk result (λ found. IfSome found (λ fault.
        IsStreamOf (Y.Files.file_of world.now.files.now name.now).source
        (Err (fault_words (stream_fault_view fault))))) }
    ensures sure { (Y.Files.file_of world.now.files.now name.now).opens ≡ true
        → (Y.Files.file_of world.now.files.now name.now).source.fails ≡ Some false
        → result ≡ Err EngineFault.Read → ⊥ }
    ensures err { IfErr result (λ fault. (fault ≡ EngineFault.Memory) ⊎ (fault ≡ EngineFault.Read)) }
{
    let bytes = read_stream(world, name, place)?;
    match session.add(&bytes) {
        Ok(()) => Ok(None),
        Err(fault) => match fault {
            AddFault::Refused(fault) => Ok(Some(fault)),
            AddFault::Memory => Err(EngineFault::Memory),
        },
    }
}

/// Reads the streams in the files of these names, in their order, and adds them, up to the first that is refused, which
/// is given by its place, with its fault.
///
/// # Errors
/// `Read`, if a file can't be opened or read, and `Memory`.
fn add_streams<Y: System>(
    world: &World<'_, Y>,
    names: &[&str],
    session: &mut Session,
) -> Result<Option<(usize, StreamFault)>, EngineFault>
    requires { session.old ≡ [] }
    ensures added { IfOk result (λ found. IfNone found (AllZip (IsSaidIn (Y.Files.file_of world.now.files.now))
        (map (λ name. name.now) names.now) session.new)) }
    ensures refused { IfOk result (λ found. IfSome found (λ at. IsRefusedFor (Y.Files.file_of world.now.files.now)
        (map (λ name. name.now) names.now)
        (refused_line (slice_index_or (map (λ name. name.now) names.now) at.0 []
        ++ fault_words (stream_fault_view at.1))))) }
    ensures sure { All (λ name. (Y.Files.file_of world.now.files.now name.now).opens ≡ true) names.now
        → All (λ name. (Y.Files.file_of world.now.files.now name.now).source.fails ≡ Some false) names.now
        → result ≡ Err EngineFault.Read → ⊥ }
    ensures err { IfErr result (λ fault. (fault ≡ EngineFault.Memory) ⊎ (fault ≡ EngineFault.Read)) }
{
    for (place, name) in names.iter().enumerate() {
        match add_stream(world, name, place, session) {
            Ok(None) => {}
            Ok(Some(fault)) => return Ok(Some((place, fault))),
            Err(fault) => return Err(fault),
        }
    }
    Ok(None)
}

/// Writes the whole text, and flushes the output.
///
/// # Errors
/// `Write` leaves a prefix of the text written, or all of it if only the flush failed.
fn write_document<O: Write>(text: &[u8], output: &mut O) -> Result<InferOutcome, EngineFault>
    ensures written { OnOk result (Appends (O.contents output.old) (O.contents output.new) text.now) }
    ensures is_written { IfOk result (λ outcome. outcome ≡ InferOutcome.Written) }
    ensures part { OnErr result ((count : ℕ) × (count ≤ length text.now)
        × Appends (O.contents output.old) (O.contents output.new) (take count text.now)) }
    ensures err { IsOkUnless result EngineFault.Write }
{
    if write_all(text, output).is_err() {
        return Err(EngineFault::Write);
    }
    if output.flush().is_err() {
        return Err(EngineFault::Write);
    }
    Ok(InferOutcome::Written)
}

/// Writes the document of streams that were read, and flushes the output; or says why there is none.
///
/// # Errors
/// `Memory` leaves nothing written. `Write` leaves a part of the document written, or all of it if only the flush
/// failed.
#[tactic(auto, using(crate::proofs::Written::document_written))]
fn write_session<Y: System, O: Write>(
    world: &World<'_, Y>,
    names: &[&str],
    session: &Session,
    output: &mut O,
) -> Result<InferOutcome, EngineFault>
    requires { AllZip (IsSaidIn (Y.Files.file_of world.now.files.now)) (map (λ name. name.now) names.now) session.now }
    ensures { InferLeaves (Y.Files.file_of world.now.files.now) (map (λ name. name.now) names.now) result
        (O.contents output.old) (O.contents output.new) }
{
    match session.document() {
        Ok(text) => write_document(&text, output),
        Err(fault) => document_refusal(world.alloc, names, fault),
    }
}

/// Opens the streams in the files of these names, in their order, reads each whole, writes the first document of all,
/// and flushes the output; or says why there is none, and nothing is written then.
///
/// # Errors
/// `Read`, if a file can't be opened or read, and `Memory` leave nothing written. `Write` leaves a part of the document
/// written, or all of it if only the flush failed.
pub fn infer_files<Y: System, O: Write>(
    world: &World<'_, Y>,
    names: &[&str],
    output: &mut O,
) -> Result<InferOutcome, EngineFault>
    ensures { InferLeaves (Y.Files.file_of world.now.files.now) (map (λ name. name.now) names.now) result
        (O.contents output.old) (O.contents output.new) }
{
    let mut session = Session::new(world.alloc);
    match add_streams(world, names, &mut session) {
        Ok(None) => write_session(world, names, &session, output),
        Ok(Some((place, fault))) => {
            stream_refusal(world.alloc, name_at(names, place), place, fault)
        }
        Err(fault) => Err(fault),
    }
}
