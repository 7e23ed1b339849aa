//! Tests recorded runs, and writes what comes of them into files: pages of those that fail, and results of all.
//!
//! The lines of the runs are `app_test`'s. A file is written beside its name first, and then named. What is written
//! into files is stated of the calls that write, in `specs/RunPages.antt` and `specs/ResultFiles.antt`. The JSON text
//! of the results has the report of each run that fails (`specs/RunReports.antt`): for it, as for a page, the files of
//! the run are read once more.
//!
//! - `unwritten`: which file or folder couldn't be written first, and why
//! - `bundle_pages`: the page of a recorded run that is a bundle, or the object of its report
//! - `run_page`: the page of a recorded run, or the object of its report
//! - `reports`: adds the reports of recorded runs that fail to the results
//! - `page_names`: the names of the pages of recorded runs
//! - `pages`: writes the pages of recorded runs that fail
//! - `result_files`: writes the results of recorded runs into files
//! - `tested_runs`: tests recorded runs, and writes these files
//! - `ends`: an explanation of how that ended
#![tactic(auto)]

mod bundle_pages;
mod ends;
mod page_names;
mod pages;
mod reports;
mod result_files;
mod run_page;
mod tested_runs;
mod unwritten;

pub use ends::{PagesEnd, ResultsEnd, test_text};
pub use pages::Pages;
pub use result_files::ResultFiles;
pub use tested_runs::test_files;
