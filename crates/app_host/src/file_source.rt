//! Where files are read, and those of a session that is kept are written; and what hears how far a judgement has come.
use app_door::{Retried, interrupted, is_interrupted};
use pd_engine::{ByteSource, Reached};
use std::alloc::Global;
use std::io::{ErrorKind, Read, Write};
use std::os::unix::fs::FileTypeExt;
use std::rt::Files;
use std::{fs, io};

/// The name by which the system knows the output.
const OUTPUT: &str = "/dev/stdout";

/// The name by which the system knows the input.
const INPUT: &str = "/dev/stdin";

/// The name by which the system knows the file of this name: `-` is the input.
pub(crate) fn system_name(name: &str) -> &str {
    if name == "-" { INPUT } else { name }
}

/// Opens files by their names. What each holds may be known, as it is in proofs over files that are made up; of the
/// system's files nothing is known.
pub trait FileSource: Sync {
    ghost use Rattle.app_arguments.specs.Statuses.{File};
    ghost use Rattle.app_host.specs.FileSources.{Knows};
    ghost use Rattle.std.specs.Prelude.{◌≡◌, IfOk, IsOk, ℕ, List, false, true};

    type File: ByteSource + Send + Drop;

    /// A file that is written.
    type Sink: Write + Send + Drop;

    // What is known of the file of each name.
    ghost file_of: { Self → List ℕ → File };

    /// Opens the file of this name to read it from its start.
    ///
    /// # Errors
    /// If it can't be opened.
    fn open(&self, name: &str) -> io::Result<Self::File>
        ensures file { IfOk result (λ file. Knows (file_of self.now name.now).source (Self.File.left file)) }
        ensures open { IfOk result (λ file. Self.File.has_ended file ≡ false) }
        ensures sure { (file_of self.now name.now).opens ≡ true → IsOk result };

    /// Makes the file of this name, to write it from its start.
    ///
    /// # Errors
    /// If it is there already, or can't be made.
    fn create(&self, name: &str) -> io::Result<Self::Sink>;

    /// Makes the folder of this name, unless there is one in which nothing is. It gives whether it was made.
    ///
    /// # Errors
    /// If something else of that name is there, or it can't be made.
    fn make_folder(&self, alloc: Global, name: &str) -> io::Result<bool>;

    /// Gives a file another name, in place of the file that has that one.
    ///
    /// # Errors
    /// If it can't be given that.
    fn rename(&self, name: &str, other: &str) -> io::Result<()>;

    /// Removes the file of this name.
    ///
    /// # Errors
    /// If it can't be removed.
    fn remove(&self, name: &str) -> io::Result<()>;

    /// Removes the folder of this name, in which nothing is.
    ///
    /// # Errors
    /// If it can't be removed, as where something is in it.
    fn remove_folder(&self, name: &str) -> io::Result<()>;

    /// How many bytes the file of this name has, if it can be read a second time and that is known, and else 0.
    fn size(&self, _name: &str) -> u64 {
        0
    }

    /// Whether the file of this name can be read a second time: a pipe or a terminal has nothing to give then, and is
    /// waited for.
    fn can_be_reread(&self, _name: &str) -> bool {
        true
    }

    /// Hears that a walk over a session in these files has come to this level.
    fn on_level(&self, _level: Reached) {}

    /// Hears that a predicate of a session in these files is answered beyond the width: which one, counted from 1, and
    /// of how many.
    fn on_predicate(&self, _number: u64, _count: u64) {}

    /// Whether the output is a pipe or a connection: a write to it fails only once whoever reads it has ended.
    fn output_is_read(&self) -> bool {
        false
    }
}

/// Whether there is a name of a file among these names of a folder, each of which is ended by a NUL.
fn names_file(names: &[u8]) -> bool {
    names
        .split(|byte| *byte == 0)
        .any(|name| !matches!(name, b"" | b"." | b".."))
}

/// Whether a folder that reads as its names has any files.
fn has_files<D: Read>(folder: &mut D) -> io::Result<bool> {
    let mut piece = [0u8; 4096];
    for _read in 0..u64::MAX {
        let count = folder.read(&mut piece)?;
        if count == 0 {
            return Ok(false);
        }
        if names_file(piece.get(..count).unwrap_or(&[])) {
            return Ok(true);
        }
    }
    Ok(true)
}

/// Makes the folder of this name.
fn make_one<R: Files>(files: &R, name: &str) -> io::Result<()> {
    for _turn in 0..u64::MAX {
        let outcome = fs::create_dir(files, name);
        if !is_interrupted(&outcome) {
            return outcome;
        }
    }
    Err(interrupted())
}

impl<R: Files + Sync> FileSource for R
where
    R::File: Send,
{
    ghost use Rattle.app_host.specs.FileSources.{unknown_file};

    type File = Retried<R::File>;

    type Sink = Retried<R::File>;

    ghost file_of = { λ _ _. unknown_file };

    fn open(&self, name: &str) -> io::Result<Retried<R::File>> {
        Ok(Retried::new(fs::open(self, system_name(name))?))
    }

    fn create(&self, name: &str) -> io::Result<Retried<R::File>> {
        Ok(Retried::new(fs::File::create_new(self, name)?))
    }

    fn make_folder(&self, alloc: Global, name: &str) -> io::Result<bool> {
        match make_one(self, name) {
            Ok(()) => return Ok(true),
            Err(error) if error.kind() == ErrorKind::AlreadyExists => {}
            Err(error) => return Err(error),
        }
        let path = format!(in alloc; "{name}/")?;
        if has_files(&mut Retried::new(self.open_dir(&path)?))? {
            return Err(io::Error::from(ErrorKind::DirectoryNotEmpty));
        }
        Ok(false)
    }

    fn rename(&self, name: &str, other: &str) -> io::Result<()> {
        for _turn in 0..u64::MAX {
            let outcome = fs::rename(self, name, other);
            if !is_interrupted(&outcome) {
                return outcome;
            }
        }
        Err(interrupted())
    }

    fn remove(&self, name: &str) -> io::Result<()> {
        fs::remove_file(self, name)
    }

    fn remove_folder(&self, name: &str) -> io::Result<()> {
        fs::remove_dir(self, name)
    }

    fn size(&self, name: &str) -> u64 {
        match fs::metadata(self, system_name(name)) {
            Ok(found) if found.is_file() => found.len(),
            _ => 0,
        }
    }

    fn can_be_reread(&self, name: &str) -> bool {
        match fs::metadata(self, system_name(name)) {
            Ok(found) => found.is_file(),
            Err(_) => false,
        }
    }

    fn output_is_read(&self) -> bool {
        match fs::metadata(self, OUTPUT) {
            Ok(found) => found.file_type().is_fifo() || found.file_type().is_socket(),
            Err(_) => false,
        }
    }
}
