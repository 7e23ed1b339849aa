//! The files of a session's streams.
ghost use Rattle.judge_explore.specs.FileViews.{file_view};
ghost use Rattle.judge_explore.specs.Sources.{file_of_lines, stream_file};
ghost use Rattle.pd_frames.specs.Views.{lines_view};
ghost use Rattle.std.specs.Prelude.{◌≡◌, [], map, IfOk};

use pd_frames::{Framer, Line};
use std::alloc::{AllocError, Global};

/// The file of a stream, as far as it is known.
#[derive(Drop)]
pub struct StreamFile<'a> {
    /// Its name.
    pub name: &'a str,
    /// Its first line that isn't blank.
    pub join: Vec<u8>,
    /// The numbers of the later lines that aren't.
    pub lines: Vec<u64>,
}

/// The numbers of lines.
fn numbers_of(alloc: Global, lines: &[Line<'_>]) -> Result<Vec<u64>, AllocError>
    ensures { IfOk result (λ numbers. numbers.items ≡ map (λ line. line.number) lines.now) }
{
    let mut numbers = Vec::with_capacity(alloc, lines.len())?;
    for line in lines {
        numbers.push(line.number)?;
    }
    Ok(numbers)
}

/// The file of this name that has these lines.
fn file_of_lines<'a>(
    alloc: Global,
    name: &'a str,
    lines: &[Line<'_>],
) -> Result<StreamFile<'a>, AllocError>
    ensures { IfOk result (λ file. file_view file ≡ file_of_lines name.now (lines_view lines.now)) }
{
    let Some((first, later)) = lines.split_first() else {
        return Ok(StreamFile::unread(alloc, name));
    };
    let join = Vec::from_slice(alloc, &first.bytes)?;
    let lines = numbers_of(alloc, later)?;
    Ok(StreamFile { name, join, lines })
}

impl<'a> StreamFile<'a> {
    /// The file of this name, of which no more is known.
    pub fn unread(alloc: Global, name: &'a str) -> StreamFile<'a>
        ensures { file_view result ≡ file_of_lines name.now [] }
    {
        StreamFile {
            name,
            join: Vec::new(alloc),
            lines: Vec::new(alloc),
        }
    }

    /// The file of this name that holds these bytes.
    ///
    /// # Errors
    /// Out of memory.
    pub fn read(alloc: Global, name: &'a str, bytes: &[u8]) -> Result<StreamFile<'a>, AllocError>
        ensures { IfOk result (λ file. file_view file ≡ stream_file name.now bytes.now) }
    {
        let mut framer = Framer::new(alloc);
        let fed = framer.feed(bytes)?;
        let ended = framer.finish()?;
        let mut lines = fed.lines;
        let mut last = ended.lines;
        lines.append(&mut last)?;
        file_of_lines(alloc, name, &lines)
    }
}
