//! The names of the pages of recorded runs.
ghost use Rattle.app_results.specs.RunPages.{IsFlat, has_slash, page_file};
ghost use Rattle.std.specs.List.{list_any};
ghost use Rattle.std.specs.Prelude.{◌≡◌, IfOk, false, map, string_bytes};
ghost use Rattle.std.specs.Str.{bytes_eq};

use judge_bundles::is_bundle_name;
use std::alloc::{AllocError, Global};

/// The name of a run whose own ends in none.
const NO_NAME: &str = "run";

/// What stands after the last slash, without slashes at the end.
fn after_slash(name: &str) -> &str {
    let name = name.trim_end_matches('/');
    match name.rsplit_once('/') {
        Some((_, last)) => last,
        None => name,
    }
}

/// What stands after the last slash of a run's name, without slashes at the end, and of a bundle without its ending.
fn part_of(name: &str) -> &str {
    let part = after_slash(name);
    if is_bundle_name(name) {
        return part.strip_suffix(".bundle").unwrap_or(part);
    }
    part
}

/// Whether a name has a slash.
fn has_slash(name: &str) -> bool
    ensures { result ≡ has_slash name.now }
{
    name.as_bytes().iter().any(|byte| *byte == b'/')
}

/// The last part of a run's name, of a bundle without its ending; `run`, if that names no file of a folder: nothing,
/// `.` or `..`.
fn last_part(name: &str) -> &str
    ensures { IsFlat result.now }
{
    match part_of(name) {
        "" | "." | ".." => NO_NAME,
        last if has_slash(last) => NO_NAME,
        last => last,
    }
}

/// The names that pages were given.
#[derive(Drop)]
pub(crate) struct PageNames<'a> {
    /// The last parts of the runs' names.
    parts: Vec<&'a str>,
    /// The pages' names.
    names: Vec<String>,
}

impl<'a> PageNames<'a> {
    /// None yet.
    pub(crate) fn new(alloc: Global) -> PageNames<'a> {
        PageNames {
            parts: Vec::new(alloc),
            names: Vec::new(alloc),
        }
    }

    /// How many runs before have this last part.
    fn count(&self, part: &str) -> u64 {
        let mut count = 0u64;
        for other in &self.parts {
            if *other == part {
                count = count.saturating_add(1);
            }
        }
        count
    }

    /// Whether a page has this name.
    fn has(&self, name: &str) -> bool {
        self.names.iter().any(|other| other.as_str() == name)
    }

    /// The first of the names PART, PART-2, PART-3 and so on that no page has, from the one on whose number is how many
    /// runs have that last part.
    fn free_name(&self, alloc: Global, part: &str) -> Result<String, AllocError> {
        let before = self.count(part);
        if before == 0 && !self.has(part) {
            return String::from_str(alloc, part);
        }
        let mut number = before.saturating_add(1).max(2);
        let mut name = format!(in alloc; "{part}-{number}")?;
        for _ in 0..self.names.len() {
            if !self.has(&name) {
                break;
            }
            number = number.saturating_add(1);
            name = format!(in alloc; "{part}-{number}")?;
        }
        Ok(name)
    }

    /// The name of the page of the run of this name, without its ending: the last part of the run's name, and if a page
    /// before has that, a number after it.
    ///
    /// # Errors
    /// An allocation was refused.
    pub(crate) fn add(&mut self, alloc: Global, run: &'a str) -> Result<&str, AllocError> {
        let part = last_part(run);
        let name = self.free_name(alloc, part)?;
        self.parts.push(part)?;
        self.names.push(name)?;
        Ok(self.names[self.names.len() - 1].as_str())
    }
}
