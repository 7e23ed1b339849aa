//! The parts of a bundle by their names, beside other files.
use super::part_file::PartFile;
use super::parts::Parts;
use app_host::FileSource;
use pd_engine::Reached;
use std::alloc::Global;
use std::io;

/// Opens the parts of a bundle by their names, and other files by theirs. A file that has the name of a part isn't
/// opened.
#[derive(Drop)]
pub struct PartFiles<'f, 'p, F> {
    /// Where the other files are.
    pub files: &'f F,
    /// The parts.
    pub parts: &'p Parts,
}

impl<'f, 'p, F> PartFiles<'f, 'p, F> {
    /// These parts, and beside them these files.
    pub fn new(files: &'f F, parts: &'p Parts) -> PartFiles<'f, 'p, F> {
        PartFiles { files, parts }
    }
}

impl<'f, 'p, F: FileSource> FileSource for PartFiles<'f, 'p, F> {
    ghost use Rattle.app_parts.specs.PartSources.{file_in};

    type File = PartFile<'p, F::File>;

    type Sink = F::Sink;

    ghost file_of = { λ all name. file_in (F.file_of all.files.now) all.parts.now.parts.items name };

    fn open(&self, name: &str) -> io::Result<PartFile<'p, F::File>> {
        let parts: &'p Parts = self.parts;
        if let Some(bytes) = parts.bytes_of(name) {
            return Ok(PartFile::Part(bytes));
        }
        match self.files.open(name) {
            Ok(file) => Ok(PartFile::File(file)),
            Err(error) => Err(error),
        }
    }

    fn create(&self, name: &str) -> io::Result<F::Sink> {
        self.files.create(name)
    }

    fn make_folder(&self, alloc: Global, name: &str) -> io::Result<bool> {
        self.files.make_folder(alloc, name)
    }

    fn rename(&self, name: &str, other: &str) -> io::Result<()> {
        self.files.rename(name, other)
    }

    fn remove(&self, name: &str) -> io::Result<()> {
        self.files.remove(name)
    }

    fn remove_folder(&self, name: &str) -> io::Result<()> {
        self.files.remove_folder(name)
    }

    fn size(&self, name: &str) -> u64 {
        match self.parts.bytes_of(name) {
            Some(bytes) => bytes.len() as u64,
            None => self.files.size(name),
        }
    }

    fn can_be_reread(&self, name: &str) -> bool {
        self.parts.bytes_of(name).is_some() || self.files.can_be_reread(name)
    }

    fn on_level(&self, level: Reached) {
        self.files.on_level(level);
    }

    fn on_predicate(&self, number: u64, count: u64) {
        self.files.on_predicate(number, count);
    }

    fn output_is_read(&self) -> bool {
        self.files.output_is_read()
    }
}
