//! The streams of a bundle, as files.
ghost use Rattle.def_judgement.specs.Writes.{whole_source};
ghost use Rattle.judge_bundle_pages.specs.BundlePages.{files_of, stream_name, stream_names};
ghost use Rattle.judge_bundle_pages.specs.Parts.{bytes_of};
ghost use Rattle.judge_explore.specs.FileViews.{files_view};
ghost use Rattle.judge_explore.specs.Sources.{stream_bytes};
ghost use Rattle.std.specs.Prelude.{◌≡◌, IfOk, length, map, string_bytes};

use def_format::STREAM_BYTE_LIMIT;
use judge_explore::StreamFile;
use pd_gather::WholeBytes;
use std::alloc::{AllocError, Global};

/// The name by which a page calls the stream of this number, counted from 1, in the bundle of this name.
fn stream_name(alloc: Global, bundle: &str, number: usize) -> Result<String, AllocError>
    ensures { IfOk result (λ name. string_bytes name ≡ stream_name bundle.now number) }
{
    format!(in alloc; "stream {number} of {bundle}")
}

/// The names by which a page calls this many streams in the bundle of this name.
///
/// # Errors
/// Out of memory.
pub(crate) fn stream_names(
    alloc: Global,
    bundle: &str,
    count: usize,
) -> Result<Vec<String>, AllocError>
    ensures { IfOk result (λ names. map string_bytes names.items ≡ stream_names bundle.now count) }
{
    let mut names = Vec::new(alloc);
    for place in 0..count {
        names.push(stream_name(alloc, bundle, place + 1)?)?;
    }
    Ok(names)
}

/// As many of a stream's bytes as it may have, and one more.
fn first_bytes(stream: &[u8]) -> &[u8]
    ensures { result.now ≡ stream_bytes stream.now }
{
    let (first, _) = stream.split_at((STREAM_BYTE_LIMIT as usize + 1).min(stream.len()));
    first
}

/// The streams as files of these names, with their lines.
///
/// # Errors
/// Out of memory.
pub(crate) fn stream_files<'a>(
    alloc: Global,
    names: &'a [String],
    streams: &[Vec<u8>],
) -> Result<Vec<StreamFile<'a>>, AllocError>
    requires { length names.now ≡ length streams.now }
    ensures { IfOk result (λ files. files_view files.items ≡ files_of (map string_bytes names.now)
        (bytes_of streams.now)) }
{
    let mut files = Vec::new(alloc);
    for place in 0..streams.len() {
        let (name, stream) = (&names[place], &streams[place]);
        files.push(StreamFile::read(alloc, name, first_bytes(stream))?)?;
    }
    Ok(files)
}

/// The sources of streams that are all there.
///
/// # Errors
/// Out of memory.
pub(crate) fn stream_sources(
    alloc: Global,
    streams: &[Vec<u8>],
) -> Result<Vec<WholeBytes<'_>>, AllocError>
    ensures { IfOk result (λ sources. map (λ source. whole_source source.rest.now) sources.items
        ≡ map (λ stream. whole_source stream.items) streams.now) }
{
    let mut sources = Vec::new(alloc);
    for stream in streams {
        sources.push(WholeBytes::new(stream))?;
    }
    Ok(sources)
}
