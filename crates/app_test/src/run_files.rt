//! The names of a run's files.
ghost use Rattle.app_test.specs.Tests.{document_in, file_in};
ghost use Rattle.std.specs.Prelude.{◌≡◌, ◌++◌, IfOk, codes, string_bytes};

use std::alloc::{AllocError, Global};

/// The name of the file of this name in a folder.
///
/// # Errors
/// An allocation was refused.
fn file_in(alloc: Global, folder: &str, name: &str) -> Result<String, AllocError>
    ensures { IfOk result (λ path. string_bytes path ≡ file_in folder.now name.now) }
{
    let mut path = String::from_str(alloc, folder)?;
    path.push_str("/")?;
    path.push_str(name)?;
    Ok(path)
}

/// The name of the document's file in a run's folder.
///
/// # Errors
/// An allocation was refused.
pub fn document_in(alloc: Global, folder: &str) -> Result<String, AllocError>
    ensures { IfOk result (λ path. string_bytes path ≡ document_in folder.now) }
{
    file_in(alloc, folder, "session.json")
}

/// The name of the file of this process's stream in a run's folder.
///
/// # Errors
/// An allocation was refused.
pub fn stream_in(alloc: Global, folder: &str, process: &str) -> Result<String, AllocError>
    ensures { IfOk result (λ path. string_bytes path ≡ file_in folder.now (process.now ++ codes ".stream")) }
{
    let mut name = String::from_str(alloc, process)?;
    name.push_str(".stream")?;
    file_in(alloc, folder, &name)
}
