//! The parts of a bundle, in memory.
ghost use Rattle.def_judgement.specs.Writes.{Source};
ghost use Rattle.judge_bundle_pages.specs.Parts.{HoldsParts};
ghost use Rattle.std.specs.Prelude.{◌≡◌, IfOk, IfSome, false};

use def_format::STREAM_COUNT_LIMIT;
use judge_bundles::read_part;
use pd_gather::ByteSource;
use read_bundle::{Bundle, BundleFault};
use std::alloc::Global;

/// The parts of a bundle.
#[derive(Drop)]
pub struct Parts {
    /// The bytes of the document.
    pub document: Vec<u8>,
    /// Those of each stream.
    pub streams: Vec<Vec<u8>>,
}

/// Reads a bundle to its end, and gives its parts, unless the streams are too many for a session.
///
/// # Errors
/// `Long` if it has over 67,108,864 bytes, `Read` if a read fails, and `Memory`.
pub fn read_parts<R: ByteSource + Drop>(
    alloc: Global,
    reader: R,
) -> Result<Option<Parts>, BundleFault>
    requires open { R.has_ended reader ≡ false }
    ensures { IfOk result (λ found. IfSome found (HoldsParts (R.left reader))) }
{
    let mut reader = reader;
    let mut bundle = Bundle::new(alloc)?;
    let (document, begins) = read_part(alloc, &mut reader, &mut bundle)?;
    let mut streams = Vec::new(alloc);
    let mut begins = begins;
    'streams: while begins && streams.len() < STREAM_COUNT_LIMIT {
        let (stream, others) = read_part(alloc, &mut reader, &mut bundle)?;
        streams.push(stream)?;
        begins = others;
    }
    if begins {
        return Ok(None);
    }
    Ok(Some(Parts { document, streams }))
}
