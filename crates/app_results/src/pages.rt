//! Writes the pages of recorded runs that fail.
ghost use Rattle.judge_runs.specs.Views.{wishes_view};
ghost use Rattle.app_results.specs.RunPages.{IsPageOfRun, page_file};
ghost use Rattle.pd_spec.specs.Views.{options_view};
ghost use Rattle.std.specs.Prelude.{◌≡◌, ◌++◌, IfErr, IfOk, codes, string_bytes};

use super::ends::PagesEnd;
use super::page_names::PageNames;
use super::run_page::run_page;
use super::unwritten::Unwritten;
use app_arguments::Test;
use app_host::{FileSource, System, World, replace_file};
use judge_session::EngineFault;
use pd_engine::Gate;
use std::alloc::{AllocError, Global};
use std::io;
use std::io::ErrorKind;

/// Why the page of a run that was judged can't be made.
const UNREAD: &str = "the files of its run can't be read once more";

/// The pages of runs that fail, as far as they are written.
#[derive(Drop)]
pub struct Pages<'a> {
    /// The name of the folder for them, if they are wanted.
    folder: Option<&'a str>,
    /// Their names.
    names: PageNames<'a>,
    /// How many are written.
    count: u64,
    /// Which couldn't be, or that the folder couldn't be made.
    unwritten: Unwritten,
}

impl<'a> Pages<'a> {
    /// None yet, in the folder of this name, if they are wanted.
    pub fn new(alloc: Global, folder: Option<&'a str>) -> Pages<'a> {
        Pages {
            folder,
            names: PageNames::new(alloc),
            count: 0,
            unwritten: Unwritten::new(),
        }
    }

    /// Whether all are written that are wanted.
    pub(crate) fn are_whole(&self) -> bool {
        !self.unwritten.has_failed()
    }

    /// What came of them.
    pub fn end(&self) -> PagesEnd<'_> {
        PagesEnd {
            folder: self.folder,
            count: self.count,
            are_whole: self.are_whole(),
            failure: self.unwritten.failure(),
        }
    }

    /// Makes the folder for them, if they are wanted and nothing of its name is there. It gives whether it is there; if
    /// not, it is noted why.
    pub(crate) fn make_folder<F: FileSource>(&mut self, files: &F, alloc: Global) -> bool {
        let Some(folder) = self.folder else {
            return true;
        };
        match files.make_folder(alloc, folder) {
            Ok(_) => true,
            Err(error) if error.kind() == ErrorKind::DirectoryNotEmpty => true,
            Err(error) => {
                self.unwritten.note_error(alloc, folder, &error);
                false
            }
        }
    }
}

/// The name of the file of the page of this name in the folder, and another for it while it is written.
fn page_paths(alloc: Global, folder: &str, name: &str) -> Result<(String, String), AllocError>
    ensures path { IfOk result (λ paths. string_bytes paths.0 ≡ page_file folder.now name.now) }
    ensures new { IfOk result (λ paths. string_bytes paths.1 ≡ page_file folder.now name.now ++ codes ".new") }
{
    let mut path = String::from_str(alloc, folder)?;
    path.push_str("/")?;
    path.push_str(name)?;
    path.push_str(".html")?;
    let mut new = String::from_str(alloc, &path)?;
    new.push_str(".new")?;
    Ok((path, new))
}

/// Writes the page of the run in this folder, under its other name first, and then gives it its own: whoever opens it
/// sees all of it, or what stood there before. What an earlier run of the program left under the other name goes. It
/// gives what kept it from that.
fn save_page<Y: System>(
    world: &World<'_, Y>,
    run: &str,
    test: &Test<'_>,
    text: &[u8],
    path: &str,
    new: &str,
) -> io::Result<()>
    // This is the page.
    requires { IsPageOfRun (Y.Files.file_of world.now.files.now) (options_view test.now.options)
        (wishes_view test.now.wishes.items) run.now text.now }
{
    let _ = world.files.remove(new);
    replace_file(world.files, new, path, text)
}

/// Writes the page of the run in this folder, if pages are wanted; if that can't be done, it is noted why.
///
/// # Errors
/// `Memory`.
fn add_page<'a, Y: System, G: Gate + Sync>(
    world: &World<'_, Y>,
    run: &'a str,
    test: &Test<'_>,
    gate: &G,
    pages: &mut Pages<'a>,
) -> Result<(), EngineFault>
    ensures { IfErr result (λ fault. fault ≡ EngineFault.Memory) }
{
    let Some(folder) = pages.folder else {
        return Ok(());
    };
    let (path, new) = page_paths(world.alloc, folder, pages.names.add(world.alloc, run)?)?;
    match run_page(world, run, test, gate) {
        Ok(text) => match save_page(world, run, test, &text, &path, &new) {
            Ok(()) => pages.count = pages.count.saturating_add(1),
            Err(error) => pages.unwritten.note_error(world.alloc, &path, &error),
        },
        Err(EngineFault::Memory) => return Err(EngineFault::Memory),
        Err(_) => pages.unwritten.note(world.alloc, &path, UNREAD),
    }
    Ok(())
}

/// Writes the pages of these runs, if pages are wanted. If one can't be written it is noted why, and the others are.
///
/// # Errors
/// `Memory`.
pub(crate) fn add_pages<'a, Y: System, G: Gate + Sync>(
    world: &World<'_, Y>,
    runs: &[&'a str],
    test: &Test<'_>,
    gate: &G,
    pages: &mut Pages<'a>,
) -> Result<(), EngineFault>
    ensures { IfErr result (λ fault. fault ≡ EngineFault.Memory) }
{
    for run in runs {
        add_page(world, run, test, gate, pages)?;
    }
    Ok(())
}
