//! Writes a file whole or not at all.
use super::file_source::FileSource;
use std::io;
use std::io::Write;

/// Writes these bytes to a file that was made, and flushes it.
fn fill<W: Write>(file: &mut W, bytes: &[u8]) -> io::Result<()> {
    file.write_all(bytes)?;
    file.flush()
}

/// Makes the file of the one name, with these bytes, and then gives it the other name, in place of the file that has
/// that. If one of the two fails, nothing is left of the new file.
///
/// # Errors
/// What kept it from that; also that there is a file of the one name.
pub fn replace_file<F: FileSource>(
    files: &F,
    new: &str,
    name: &str,
    bytes: &[u8],
) -> io::Result<()> {
    let mut file = files.create(new)?;
    let replaced = match fill(&mut file, bytes) {
        Ok(()) => files.rename(new, name),
        Err(error) => Err(error),
    };
    if replaced.is_err() {
        let _ = files.remove(new);
    }
    replaced
}
