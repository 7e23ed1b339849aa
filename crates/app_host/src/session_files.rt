//! Opens and reads the files of a session.
ghost use Rattle.app_arguments.specs.Statuses.{MayBeUnread, sources_of};
ghost use Rattle.app_arguments.specs.Views.{session_view};
ghost use Rattle.app_host.specs.FileSources.{IsReadOf, Knows};
ghost use Rattle.std.specs.List.{AllZip};
ghost use Rattle.std.specs.Prelude.{◌≡◌, ◌≢◌, ◌⊎◌, ◌∷◌, [], All, Err, IfErr, IfOk, IsOk, IsOkUnless, Some, false, map, true};

use super::file_source::FileSource;
use super::note::Note;
use super::noted_source::NotedSource;
use super::world::{System, World};
use app_arguments::SessionNames;
use def_format::DOCUMENT_BYTE_LIMIT;
use judge_session::{EngineFault, read_upto};
use pd_engine::ByteSource;
use std::alloc::Global;

/// Opens a file, of which it is noted what is read, and why it can't be opened or read, if that is wanted.
///
/// # Errors
/// `Read`, if it can't be opened.
pub fn open_noted<'n, F: FileSource>(
    alloc: Global,
    files: &F,
    name: &str,
    note: Option<&'n Note>,
) -> Result<NotedSource<'n, F::File>, EngineFault>
    ensures file { IfOk result (λ file. Knows (F.file_of files.now name.now).source (F.File.left file.source)) }
    ensures open { IfOk result (λ file. F.File.has_ended file.source ≡ false) }
    ensures sure { (F.file_of files.now name.now).opens ≡ true → IsOk result }
    ensures err { IsOkUnless result EngineFault.Read }
{
    match files.open(name) {
        Ok(file) => Ok(NotedSource::new(alloc, file, note)),
        Err(error) => {
            if let Some(note) = note {
                note.set_failure(alloc, &error);
            }
            Err(EngineFault::Read)
        }
    }
}

/// Opens the stream at this place, which is counted from 0.
///
/// # Errors
/// `Read`, if it can't be opened.
fn open_stream<'n, Y: System>(
    world: &World<'n, Y>,
    name: &str,
    place: usize,
) -> Result<NotedSource<'n, <Y::Files as FileSource>::File>, EngineFault>
    ensures file { IfOk result (λ file. Knows (Y.Files.file_of world.now.files.now name.now).source
        (Y.Files.File.left file.source)) }
    ensures open { IfOk result (λ file. Y.Files.File.has_ended file.source ≡ false) }
    ensures sure { (Y.Files.file_of world.now.files.now name.now).opens ≡ true → IsOk result }
    ensures err { IsOkUnless result EngineFault.Read }
{
    open_noted(world.alloc, world.files, name, world.notes.stream(place))
}

/// Opens the streams from this place on, to note which of them can't be opened beside the one before.
fn note_unopened<Y: System>(world: &World<'_, Y>, names: &[&str], place: usize) {
    for (at, name) in names.iter().enumerate() {
        if at > place {
            let _ = open_stream(world, name, at);
        }
    }
}

/// Opens these files in their order.
///
/// # Errors
/// `Read`, if one can't be opened, and `Memory`.
pub fn open_streams<'n, Y: System>(
    world: &World<'n, Y>,
    names: &[&str],
) -> Result<Vec<NotedSource<'n, <Y::Files as FileSource>::File>>, EngineFault>
    ensures known { IfOk result (λ streams. AllZip Knows (map (λ name. (Y.Files.file_of world.now.files.now
        name.now).source) names.now) (map (λ stream. Y.Files.File.left stream.source) streams.items)) }
    ensures open { IfOk result (λ streams. All (λ stream. Y.Files.File.has_ended stream.source ≡ false)
        streams.items) }
    ensures sure { All (λ name. (Y.Files.file_of world.now.files.now name.now).opens ≡ true) names.now
        → result ≡ Err EngineFault.Read → ⊥ }
    ensures err { IfErr result (λ fault. (fault ≡ EngineFault.Memory) ⊎ (fault ≡ EngineFault.Read)) }
{
    let mut streams = Vec::new(world.alloc);
    for (place, name) in names.iter().enumerate() {
        match open_stream(world, name, place) {
            Ok(stream) => streams.push(stream)?,
            Err(fault) => {
                note_unopened(world, names, place);
                return Err(fault);
            }
        }
    }
    Ok(streams)
}

/// The bytes of a session document. Of one that is longer than `DOCUMENT_BYTE_LIMIT` a byte more than that is read: it
/// is refused by these as it is by all of them.
///
/// # Errors
/// `Read`, if a read fails, and `Memory`.
pub fn read_document<R: ByteSource + Drop>(alloc: Global, reader: R) -> Result<Vec<u8>, EngineFault>
    requires { R.has_ended reader ≡ false }
    ensures read { IfOk result (λ bytes. IsReadOf bytes.items (R.left reader)) }
    ensures cause { result ≡ Err EngineFault.Read → (R.left reader).fails ≢ Some false }
    ensures err { IfErr result (λ fault. (fault ≡ EngineFault.Memory) ⊎ (fault ≡ EngineFault.Read)) }
{
    read_upto(alloc, reader, DOCUMENT_BYTE_LIMIT)
}

/// The bytes of a session's document and its streams, which are open and unread.
#[derive(Drop)]
pub struct SessionFiles<R: Drop> {
    pub document: Vec<u8>,
    pub streams: Vec<R>,
}

/// Opens the files of a session, the document and then the streams, and reads the document. All files are opened before
/// one is read, and of each that can't be it is noted why.
///
/// # Errors
/// `Read`, if a file can't be opened or the document can't be read, and `Memory`.
pub fn read_session<'n, Y: System>(
    world: &World<'n, Y>,
    names: &SessionNames<'_>,
) -> Result<SessionFiles<NotedSource<'n, <Y::Files as FileSource>::File>>, EngineFault>
    ensures document { IfOk result (λ read. IsReadOf read.document.items
        (Y.Files.file_of world.now.files.now names.now.spec.now).source) }
    ensures streams { IfOk result (λ read. AllZip Knows (sources_of (map (Y.Files.file_of world.now.files.now)
        (session_view names.now).1)) (map (λ stream. Y.Files.File.left stream.source) read.streams.items)) }
    ensures open { IfOk result (λ read. All (λ stream. Y.Files.File.has_ended stream.source ≡ false)
        read.streams.items) }
    ensures unread { result ≡ Err EngineFault.Read → MayBeUnread (Y.Files.file_of world.now.files.now
        names.now.spec.now ∷ map (Y.Files.file_of world.now.files.now) (session_view names.now).1) (Y.Files.file_of
        world.now.files.now names.now.spec.now ∷ []) }
    ensures err { IfErr result (λ fault. (fault ≡ EngineFault.Memory) ⊎ (fault ≡ EngineFault.Read)) }
{
    let spec = open_noted(world.alloc, world.files, names.spec, world.notes.document());
    let streams = open_streams(world, &names.streams);
    let spec = spec?;
    let streams = streams?;
    let document = read_document(world.alloc, spec)?;
    Ok(SessionFiles { document, streams })
}
