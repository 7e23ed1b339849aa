//! Files that are shown while they are read.
use super::screen::Screen;
use super::shown_file::ShownFile;
use app_host::FileSource;
use pd_engine::Reached;
use std::alloc::Global;
use std::io;
use std::io::Eprint;
use std::time::Clock;

/// Opens files, whose reading is shown on a terminal.
#[derive(Drop)]
pub struct ShownFiles<'a, F, R> {
    /// Where the files are.
    pub files: &'a F,
    screen: &'a Screen<'a, R>,
}

impl<'a, F, R> ShownFiles<'a, F, R> {
    /// These files, on this terminal.
    pub fn new(files: &'a F, screen: &'a Screen<'a, R>) -> ShownFiles<'a, F, R> {
        ShownFiles { files, screen }
    }
}

impl<'a, F: FileSource, R: Clock + Eprint + Sync> FileSource for ShownFiles<'a, F, R> {
    type File = ShownFile<'a, F::File, R>;

    type Sink = F::Sink;

    ghost file_of = { λ shown. F.file_of shown.files.now };

    fn open(&self, name: &str) -> io::Result<ShownFile<'a, F::File, R>> {
        let size = self.files.size(name);
        match self.files.open(name) {
            Ok(file) => Ok(ShownFile::new(file, size, self.screen)),
            Err(error) => Err(error),
        }
    }

    fn create(&self, name: &str) -> io::Result<F::Sink> {
        self.files.create(name)
    }

    fn make_folder(&self, alloc: Global, name: &str) -> io::Result<bool> {
        self.files.make_folder(alloc, name)
    }

    fn rename(&self, name: &str, other: &str) -> io::Result<()> {
        self.files.rename(name, other)
    }

    fn remove(&self, name: &str) -> io::Result<()> {
        self.files.remove(name)
    }

    fn remove_folder(&self, name: &str) -> io::Result<()> {
        self.files.remove_folder(name)
    }

    fn size(&self, name: &str) -> u64 {
        self.files.size(name)
    }

    fn on_level(&self, level: Reached) {
        self.screen.reach(level);
    }

    fn on_predicate(&self, number: u64, count: u64) {
        self.screen.ask(number, count);
    }

    fn output_is_read(&self) -> bool {
        self.files.output_is_read()
    }

    fn can_be_reread(&self, name: &str) -> bool {
        self.files.can_be_reread(name)
    }
}
