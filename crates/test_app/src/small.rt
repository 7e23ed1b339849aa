//! The files of a small session, and what the program makes of them.
use pd_cli::FileSource;
use std::alloc::Global;
use std::io;
use std::io::{Error, ErrorKind, Write};

/// The session as a bundle.
pub(crate) const BUNDLE: &str =
    "{\"processes\":[{\"name\":\"a\",\"vars\":{\"x\":0}},{\"name\":\"b\",\"vars\":{\"y\":0}}],\
\"predicates\":[{\"name\":\"both\",\"text\":\"a.x == 1 and b.y == 1\"}]}\n\
---\n{\"process\":\"a\"}\n{\"set\":{\"x\":1}}\n{\"set\":{\"x\":0}}\n{\"end\":true}\n\
---\n{\"process\":\"b\"}\n{\"set\":{\"y\":1}}\n{\"set\":{\"y\":0}}\n{\"end\":true}\n";

/// The session document.
const DOCUMENT: &str =
    "{\"processes\":[{\"name\":\"a\",\"vars\":{\"x\":0}},{\"name\":\"b\",\"vars\":{\"y\":0}}],\
\"predicates\":[{\"name\":\"both\",\"text\":\"a.x == 1 and b.y == 1\"}]}";

/// The stream of its first process.
pub(crate) const OF_A: &str =
    "{\"process\":\"a\"}\n{\"set\":{\"x\":1}}\n{\"set\":{\"x\":0}}\n{\"end\":true}\n";

/// The stream of its second process.
pub(crate) const OF_B: &str =
    "{\"process\":\"b\"}\n{\"set\":{\"y\":1}}\n{\"set\":{\"y\":0}}\n{\"end\":true}\n";

/// Its report.
pub(crate) const REPORT: &str =
    "session 2 processes 4 events 0 messages\nboth possibly yes 1,1\nboth definitely no b,b,a,a\n";

/// A report with another cut.
const WRONG_CUT: &str =
    "session 2 processes 4 events 0 messages\nboth possibly yes 2,2\nboth definitely no b,b,a,a\n";

/// A document whose streams have a causal cycle.
const CYCLIC: &str = "{\"processes\":[{\"name\":\"a\",\"vars\":{}},{\"name\":\"b\",\"vars\":{}}],\
\"predicates\":[{\"name\":\"sure\",\"text\":\"true\"}]}";

/// The stream of its first process, which receives before it sends.
const CYCLIC_A: &str = "{\"process\":\"a\"}\n{\"recv\":\"k\"}\n{\"send\":\"m\"}\n{\"end\":true}\n";

/// The stream of its second process, which does so too.
const CYCLIC_B: &str = "{\"process\":\"b\"}\n{\"recv\":\"m\"}\n{\"send\":\"k\"}\n{\"end\":true}\n";

/// Its report.
const CYCLE: &str = "refused cycle a#1,b#1\n";

/// A file that is written, of which nothing is left.
#[derive(Drop)]
pub(crate) struct Kept {
    /// Whether it can be flushed.
    flushes: bool,
}

impl Write for Kept {
    fn write(&mut self, bytes: &[u8]) -> io::Result<usize> {
        Ok(bytes.len())
    }

    fn flush(&mut self) -> io::Result<()> {
        if self.flushes {
            Ok(())
        } else {
            Err(Error::from(ErrorKind::StorageFull))
        }
    }
}

/// The files, by their names.
#[derive(Drop)]
pub(crate) struct Files;

impl FileSource for Files {
    ghost use Rattle.app_host.specs.FileSources.{unknown_file};

    type File = &'static [u8];

    type Sink = Kept;

    ghost file_of = { λ _ _. unknown_file };

    fn open(&self, name: &str) -> io::Result<&'static [u8]> {
        match name {
            "spec" => Ok(DOCUMENT.as_bytes()),
            "a" => Ok(OF_A.as_bytes()),
            "b" => Ok(OF_B.as_bytes()),
            "report" => Ok(REPORT.as_bytes()),
            "wrong" => Ok(WRONG_CUT.as_bytes()),
            "garbage" => Ok(b"x\n"),
            "cyclic" => Ok(CYCLIC.as_bytes()),
            "cyclic-a" => Ok(CYCLIC_A.as_bytes()),
            "cyclic-b" => Ok(CYCLIC_B.as_bytes()),
            "cycle" => Ok(CYCLE.as_bytes()),
            _ => Err(Error::from(ErrorKind::NotFound)),
        }
    }

    /// Those of a folder whose name begins so can't be flushed.
    fn create(&self, name: &str) -> io::Result<Kept> {
        Ok(Kept {
            flushes: !name.as_bytes().starts_with(b"unflushed"),
        })
    }

    fn make_folder(&self, _alloc: Global, _name: &str) -> io::Result<bool> {
        Ok(true)
    }

    /// Those of another folder can't be given another name.
    fn rename(&self, name: &str, _other: &str) -> io::Result<()> {
        if name.as_bytes().starts_with(b"unnamed") {
            return Err(Error::from(ErrorKind::PermissionDenied));
        }
        Ok(())
    }

    fn remove(&self, _name: &str) -> io::Result<()> {
        Ok(())
    }

    fn remove_folder(&self, _name: &str) -> io::Result<()> {
        Ok(())
    }
}
