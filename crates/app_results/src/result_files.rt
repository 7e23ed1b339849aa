//! Writes the results of recorded runs into files.
ghost use Rattle.app_arguments.specs.Views.{names_view};
ghost use Rattle.judge_runs.specs.Views.{wishes_view};
ghost use Rattle.app_results.specs.ResultFiles.{IsJsonOfRuns, IsJunitOfRuns};
ghost use Rattle.pd_spec.specs.Views.{options_view};
ghost use Rattle.std.specs.Prelude.{◌≡◌, is_some, true};

use super::ends::ResultsEnd;
use super::unwritten::Unwritten;
use app_arguments::Test;
use app_host::{FileSource, System, World, replace_file};
use judge_results::Texts;
use std::alloc::Global;

/// The files of results, as far as they are written.
#[derive(Drop)]
pub struct ResultFiles<'a> {
    /// The name of the file of JSON, if it is wanted.
    json: Option<&'a str>,
    /// The name of the file of JUnit, if it is wanted.
    junit: Option<&'a str>,
    /// Which couldn't be.
    unwritten: Unwritten,
}

impl<'a> ResultFiles<'a> {
    /// None yet, of those that this test wants.
    pub fn new(test: &Test<'a>) -> ResultFiles<'a> {
        ResultFiles {
            json: test.json,
            junit: test.junit,
            unwritten: Unwritten::new(),
        }
    }

    /// Whether none couldn't be written.
    pub(crate) fn are_whole(&self) -> bool {
        !self.unwritten.has_failed()
    }

    /// What came of them.
    pub fn end(&self) -> ResultsEnd<'_> {
        ResultsEnd {
            json: self.json,
            junit: self.junit,
            are_whole: self.are_whole(),
            failure: self.unwritten.failure(),
        }
    }

    /// Tries whether a file can be made beside this name, as the one is that gets it once it is whole. If not, it is
    /// noted why.
    fn try_name<F: FileSource>(&mut self, files: &F, alloc: Global, name: &str) {
        let Ok(new) = format!(in alloc; "{name}.new") else {
            self.unwritten.note(alloc, name, "");
            return;
        };
        let _ = files.remove(&new);
        match files.create(&new) {
            Ok(_) => {
                let _ = files.remove(&new);
            }
            Err(error) => self.unwritten.note_error(alloc, name, &error),
        }
    }

    /// Tries, before a run is judged, whether the files that are wanted can be written: each has a name of its own, and
    /// can be made. If not, it is noted why. It gives whether they can.
    pub(crate) fn try_names<F: FileSource>(&mut self, files: &F, alloc: Global) -> bool {
        if let (Some(json), Some(junit)) = (self.json, self.junit) {
            if json == junit {
                self.unwritten
                    .note(alloc, json, "it stands after --json and after --junit");
                return false;
            }
        }
        if let Some(name) = self.json {
            self.try_name(files, alloc, name);
        }
        if let Some(name) = self.junit {
            self.try_name(files, alloc, name);
        }
        self.are_whole()
    }

    /// Writes this text into the file of this name, first under its name and `.new`, and then gives it its own: whoever
    /// opens it sees all of it, or what stood there before. What an earlier run of the program left under the other
    /// name goes. If it can't be written, it is noted why.
    fn write<F: FileSource>(&mut self, files: &F, alloc: Global, name: &str, text: &[u8]) {
        let Ok(new) = format!(in alloc; "{name}.new") else {
            self.unwritten.note(alloc, name, "");
            return;
        };
        let _ = files.remove(&new);
        if let Err(error) = replace_file(files, &new, name, text) {
            self.unwritten.note_error(alloc, name, &error);
        }
    }
}

/// Writes the file of JSON. If it can't be written, it is noted why.
fn save_json<Y: System>(
    world: &World<'_, Y>,
    test: &Test<'_>,
    name: &str,
    text: &[u8],
    files: &mut ResultFiles<'_>,
)
    // This is the JSON text of the runs.
    requires { IsJsonOfRuns (Y.Files.file_of world.now.files.now) (options_view test.now.options)
        (wishes_view test.now.wishes.items) (names_view test.now.runs.items) text.now }
{
    files.write(world.files, world.alloc, name, text);
}

/// Writes the file of JUnit. If it can't be written, it is noted why.
fn save_junit<Y: System>(
    world: &World<'_, Y>,
    test: &Test<'_>,
    name: &str,
    text: &[u8],
    files: &mut ResultFiles<'_>,
)
    // This is the XML of the runs.
    requires { IsJunitOfRuns (Y.Files.file_of world.now.files.now) (options_view test.now.options)
        (wishes_view test.now.wishes.items) (names_view test.now.runs.items) text.now }
{
    files.write(world.files, world.alloc, name, text);
}

/// Writes the files of results that are wanted. If one can't be written, it is noted why, and the other is.
pub(crate) fn save_results<Y: System>(
    world: &World<'_, Y>,
    test: &Test<'_>,
    texts: &Texts,
    files: &mut ResultFiles<'_>,
)
    requires json { is_some test.now.json ≡ true → IsJsonOfRuns (Y.Files.file_of world.now.files.now)
        (options_view test.now.options) (wishes_view test.now.wishes.items) (names_view test.now.runs.items)
        texts.now.json.items }
    requires junit { is_some test.now.junit ≡ true → IsJunitOfRuns (Y.Files.file_of world.now.files.now)
        (options_view test.now.options) (wishes_view test.now.wishes.items) (names_view test.now.runs.items)
        texts.now.junit.items }
{
    if let Some(name) = test.json {
        save_json(world, test, name, &texts.json, files);
    }
    if let Some(name) = test.junit {
        save_junit(world, test, name, &texts.junit, files);
    }
}
