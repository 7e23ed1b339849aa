//! Writes a session into its folder.
ghost use Rattle.app_arguments.specs.Views.{session_view};
ghost use Rattle.app_reduce.specs.Files.{IsSessionOfFiles};
ghost use Rattle.judge_reduction.specs.ReducedSessions.{texts_view};
ghost use Rattle.pd_spec.specs.Views.{options_view};

use super::notes::notes_text;
use super::outcome::MadeSession;
use super::unwritten::Unwritten;
use app_arguments::Reduction;
use app_host::{FileSource, System, World};
use std::alloc::{AllocError, Global};
use std::io;
use std::io::{ErrorKind, Write};

/// The name of the document's file in this folder.
fn document_path(alloc: Global, folder: &str) -> Result<String, AllocError> {
    format!(in alloc; "{folder}/session.json")
}

/// The name of the file of the notes in this folder.
fn notes_path(alloc: Global, folder: &str) -> Result<String, AllocError> {
    format!(in alloc; "{folder}/notes.jsonl")
}

/// The name of the file of the stream at this place in this folder: that of its process.
fn stream_path(
    alloc: Global,
    folder: &str,
    made: &MadeSession,
    place: usize,
) -> Result<String, AllocError> {
    let names = made.spec.names();
    match made.session.places.get(place) {
        Some(&p) if p < names.processes() => {
            let process = names.name(p);
            format!(in alloc; "{folder}/{process}.stream")
        }
        _ => format!(in alloc; "{folder}/{place}.stream"),
    }
}

/// Writes these bytes into a file that was made, and flushes it.
fn fill_file<W: Write>(file: &mut W, bytes: &[u8]) -> io::Result<()> {
    file.write_all(bytes)?;
    file.flush()
}

/// Makes the file of this name, with these bytes. It gives whether the file is written; if not, it is noted why. If it
/// was made, its name is added to those of the files that were.
///
/// # Errors
/// Out of memory, before the file is made.
fn add_file<F: FileSource>(
    files: &F,
    alloc: Global,
    path: String,
    bytes: &[u8],
    made: &mut Vec<String>,
    unwritten: &mut Unwritten,
) -> Result<bool, AllocError> {
    made.reserve(1)?;
    let mut file = match files.create(&path) {
        Ok(file) => file,
        Err(error) => {
            unwritten.note(alloc, &path, &error);
            return Ok(false);
        }
    };
    let is_written = match fill_file(&mut file, bytes) {
        Ok(()) => true,
        Err(error) => {
            unwritten.note(alloc, &path, &error);
            false
        }
    };
    made.push(path)?;
    Ok(is_written)
}

/// Makes the files of the streams of a session in this folder. It gives whether all are written; if not, it is noted
/// why.
///
/// # Errors
/// Out of memory.
fn add_streams<F: FileSource>(
    files: &F,
    alloc: Global,
    folder: &str,
    session: &MadeSession,
    made: &mut Vec<String>,
    unwritten: &mut Unwritten,
) -> Result<bool, AllocError> {
    for (place, stream) in session.session.streams.iter().enumerate() {
        let path = stream_path(alloc, folder, session, place)?;
        if !add_file(files, alloc, path, stream, made, unwritten)? {
            return Ok(false);
        }
    }
    Ok(true)
}

/// Makes the files of a session in this folder, its document first and its notes last. It gives whether all are
/// written; if not, it is noted why.
///
/// # Errors
/// Out of memory.
fn add_files<F: FileSource>(
    files: &F,
    alloc: Global,
    folder: &str,
    session: &MadeSession,
    made: &mut Vec<String>,
    unwritten: &mut Unwritten,
) -> Result<bool, AllocError> {
    let notes = notes_text(alloc, session)?;
    let path = document_path(alloc, folder)?;
    if !add_file(
        files,
        alloc,
        path,
        &session.session.document,
        made,
        unwritten,
    )? {
        return Ok(false);
    }
    if !add_streams(files, alloc, folder, session, made, unwritten)? {
        return Ok(false);
    }
    let path = notes_path(alloc, folder)?;
    add_file(files, alloc, path, &notes, made, unwritten)
}

/// Removes the files of these names, as far as they are there.
fn remove_files<F: FileSource>(files: &F, made: &[String]) {
    for path in made {
        let _ = files.remove(path.as_str());
    }
}

/// A folder for a session: it was made, or there was an empty one. Its files are written into another one, which gets
/// its name once it is whole.
#[derive(Drop)]
pub(crate) struct Reserved<'a> {
    /// Its name.
    name: &'a str,
    /// Whether it was made.
    is_made: bool,
    /// The name of the other one.
    new: String,
}

/// Whether a folder of this name can get the name of another one: `.`, `..` and none stand for folders that are there.
fn is_own_name(name: &str) -> bool {
    let last = match name.rsplit_once('/') {
        Some((_, last)) => last,
        None => name,
    };
    last != "" && last != "." && last != ".."
}

/// Makes the folder of this name, or takes an empty one. It gives whether it was made, or none if it isn't there; then
/// it is noted why.
///
/// # Errors
/// Out of memory.
fn make_folder<F: FileSource>(
    files: &F,
    alloc: Global,
    name: &str,
    unwritten: &mut Unwritten,
) -> Result<Option<bool>, AllocError> {
    match files.make_folder(alloc, name) {
        Ok(is_made) => Ok(Some(is_made)),
        Err(error) if error.kind() == ErrorKind::OutOfMemory => Err(AllocError),
        Err(error) => {
            unwritten.note(alloc, name, &error);
            Ok(None)
        }
    }
}

/// Removes a folder in which nothing is, if it was made.
fn remove_made<F: FileSource>(files: &F, name: &str, is_made: bool) {
    if is_made {
        let _ = files.remove_folder(name);
    }
}

/// Makes the folder for the session that is asked for, unless there is an empty one, and under its name and `.new`
/// another one for the files while they are written. If one of them can't be made, it gives none, nothing of them is
/// left, and it is noted why.
///
/// # Errors
/// Out of memory.
pub(crate) fn reserve_folder<'a, Y: System>(
    world: &World<'_, Y>,
    reduction: &'a Reduction<'_>,
    unwritten: &mut Unwritten,
) -> Result<Option<Reserved<'a>>, AllocError> {
    let (files, alloc) = (world.files, world.alloc);
    let name = reduction.folder.trim_end_matches('/');
    if !is_own_name(name) {
        unwritten.note(
            alloc,
            reduction.folder,
            &io::Error::from(ErrorKind::InvalidInput),
        );
        return Ok(None);
    }
    let new = format!(in alloc; "{name}.new")?;
    let Some(is_made) = make_folder(files, alloc, name, unwritten)? else {
        return Ok(None);
    };
    match make_folder(files, alloc, &new, unwritten) {
        Ok(Some(_)) => Ok(Some(Reserved { name, is_made, new })),
        Ok(None) => {
            remove_made(files, name, is_made);
            Ok(None)
        }
        Err(error) => {
            remove_made(files, name, is_made);
            Err(error)
        }
    }
}

/// Removes what was made for a session that isn't written.
pub(crate) fn release_folder<F: FileSource>(files: &F, reserved: &Reserved<'_>) {
    remove_made(files, &reserved.new, true);
    remove_made(files, reserved.name, reserved.is_made);
}

/// Gives the folder with the files of a session its name, in place of the empty one that has it. It gives whether it
/// has it; if not, it is noted why.
fn move_folder<F: FileSource>(
    files: &F,
    alloc: Global,
    reserved: &Reserved<'_>,
    unwritten: &mut Unwritten,
) -> bool {
    match files.rename(&reserved.new, reserved.name) {
        Ok(()) => true,
        Err(error) => {
            unwritten.note(alloc, reserved.name, &error);
            false
        }
    }
}

/// Writes a session into the folder that was made for it, which gets all of its files at once. So whoever opens the
/// folder finds all of the session in it, or nothing. It gives whether it is written; if not, it is noted why, and
/// nothing of the session is left. Files that another run wrote there stay.
///
/// # Errors
/// Out of memory.
pub(crate) fn save_session<Y: System>(
    world: &World<'_, Y>,
    reduction: &Reduction<'_>,
    reserved: &Reserved<'_>,
    made: &MadeSession,
    unwritten: &mut Unwritten,
) -> Result<bool, AllocError>
    // It is a session that has the answers of the run.
    requires { IsSessionOfFiles (Y.Files.file_of world.now.files.now) (options_view reduction.now.names.options)
        reduction.now.names.spec.now (session_view reduction.now.names).1 made.now.session.document.items
        (texts_view made.now.session.streams.items) }
{
    let (files, alloc) = (world.files, world.alloc);
    let mut written = Vec::new(alloc);
    let added = add_files(files, alloc, &reserved.new, made, &mut written, unwritten);
    if matches!(added, Ok(true)) && move_folder(files, alloc, reserved, unwritten) {
        return Ok(true);
    }
    remove_files(files, &written);
    match added {
        Ok(_) => Ok(false),
        Err(error) => Err(error),
    }
}
