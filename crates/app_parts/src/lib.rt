//! Reads a bundle from the input, and gives its parts as files, so that a session in files may come by one pipe.
//!
//! - `parts`: the parts of a bundle, which are held in memory
//! - `part_file`: a part as it is read, or another file
//! - `part_files`: the parts by their names, beside other files
//! - `asked`: whether the arguments ask for the bundle on the input
//! - `input`: what a run is given: the arguments, the parts, and what is left of the input
//! - `unread`: reports that a bundle can't be read, or is none
#![tactic(auto)]

mod asked;
mod input;
mod part_file;
mod part_files;
mod parts;
mod unread;

pub use asked::{Bundled, find_bundle};
pub use input::{Given, read_input};
pub use part_file::PartFile;
pub use part_files::PartFiles;
pub use parts::Parts;
pub use unread::{report_undivided, report_unread};
