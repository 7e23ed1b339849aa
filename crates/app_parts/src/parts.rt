//! The parts of a bundle, which are held in memory.
ghost use Rattle.app_parts.specs.Names.{bytes_called, names_of, part_name, part_names};
ghost use Rattle.app_parts.specs.PartsKept.{HoldsParts, bytes_of};
ghost use Rattle.def_judgement.specs.Writes.{IsBrokenOff, IsTooLong, Source};
ghost use Rattle.read_bundle.specs.declared.fault.BundleFault.TheVariants as faults;
ghost use Rattle.std.specs.Prelude.{◌≡◌, ◌++◌, ◌↔◌, Err, IfOk, IsTrue, List, ℕ, OnOk, [], drop, false, length, map, option_map, string_bytes};

use def_format::STREAM_COUNT_LIMIT;
use judge_bundles::read_part;
use pd_gather::ByteSource;
use read_bundle::{Bundle, BundleFault, skip_parts};
use std::alloc::{AllocError, Global};

/// How many parts are kept: the document, as many streams as a session may have, and one more, for which it is refused.
const PART_LIMIT: usize = STREAM_COUNT_LIMIT + 2;

/// A part of a bundle.
#[derive(Drop)]
pub(crate) struct Part {
    /// The name by which it is opened.
    name: String,
    /// Its bytes.
    bytes: Vec<u8>,
}

/// The parts of a bundle, or none.
#[derive(Drop)]
pub struct Parts {
    parts: Vec<Part>,
}

/// The name by which the part is opened before which this many others stand: that of the document is the input's.
fn part_name(alloc: Global, others: usize) -> Result<String, AllocError>
    ensures { IfOk result (λ name. string_bytes name ≡ part_name others) }
{
    if others == 0 {
        return String::from_str(alloc, "-");
    }
    format!(in alloc; "stream {others} of standard input")
}

/// The part with these bytes before which this many others stand.
fn new_part(alloc: Global, others: usize, bytes: Vec<u8>) -> Result<Part, AllocError>
    ensures bytes { IfOk result (λ part. part.bytes ≡ bytes) }
    ensures name { IfOk result (λ part. string_bytes part.name ≡ part_name others) }
{
    Ok(Part {
        name: part_name(alloc, others)?,
        bytes,
    })
}

/// Reads a bundle to its end, and gives its parts: the document, and then the streams. Of streams that are too many for
/// a session one more than it may have is kept, and the others are read and dropped.
///
/// # Errors
/// `Long` if the bundle has over 67,108,864 bytes, `Read` if a read fails, and `Memory`. The reader isn't used again
/// then.
pub(crate) fn read_parts<R: ByteSource>(alloc: Global, reader: &mut R) -> Result<Parts, BundleFault>
    requires open { R.has_ended reader.old ≡ false }
    ensures names { IfOk result (λ read. names_of read.parts.items ≡ part_names (length read.parts.items)) }
    ensures parts { IfOk result (λ read. HoldsParts (R.left reader.old) (bytes_of read.parts.items)) }
    ensures long { result ≡ Err faults.Long → IsTooLong (R.left reader.old) }
    ensures cause { result ≡ Err faults.Read → IsBrokenOff (R.left reader.old) }
{
    let mut bundle = Bundle::new(alloc)?;
    let mut parts = Vec::new(alloc);
    let mut begins = true;
    'parts: while begins && parts.len() < PART_LIMIT {
        let (bytes, others) = read_part(alloc, reader, &mut bundle)?;
        let part = new_part(alloc, parts.len(), bytes)?;
        parts.push(part)?;
        begins = others;
    }
    if begins {
        skip_parts(reader, &mut bundle)?;
    }
    Ok(Parts { parts })
}

impl Parts {
    /// No parts.
    pub(crate) fn none(alloc: Global) -> Parts
        ensures { result.parts.items ≡ [] }
    {
        Parts {
            parts: Vec::new(alloc),
        }
    }

    /// Whether there is the document alone: the bundle has no separator.
    pub fn is_document_alone(&self) -> bool
        ensures { IsTrue result ↔ (length self.now.parts.items ≡ 1) }
    {
        self.parts.len() == 1
    }

    /// The bytes of the part of this name, if there is one.
    pub(crate) fn bytes_of(&self, name: &str) -> Option<&[u8]>
        ensures { option_map (λ bytes. bytes.now) result ≡ bytes_called name.now self.now.parts.items }
    {
        for part in &self.parts {
            if part.name.as_str() == name {
                return Some(&part.bytes);
            }
        }
        None
    }

    /// The arguments with the names of the streams after them.
    ///
    /// # Errors
    /// Out of memory.
    pub(crate) fn with_streams(
        &self,
        alloc: Global,
        arguments: Vec<String>,
    ) -> Result<Vec<String>, AllocError>
        ensures { IfOk result (λ all. map string_bytes all.items
            ≡ map string_bytes arguments.items ++ drop 1 (names_of self.now.parts.items)) }
    {
        let mut arguments = arguments;
        let Some((_, streams)) = self.parts.split_first() else {
            return Ok(arguments);
        };
        for stream in streams {
            arguments.push(String::from_str(alloc, stream.name.as_str())?)?;
        }
        Ok(arguments)
    }
}
