//! Opens the streams of a run.
ghost use Rattle.app_arguments.specs.Statuses.{sources_of};
ghost use Rattle.app_host.specs.FileSources.{Knows};
ghost use Rattle.app_test.specs.ReadRuns.{IsUnopened};
ghost use Rattle.app_test.specs.Tests.{stream_in, streams_in};
ghost use Rattle.pd_spec.specs.Views.{document_view};
ghost use Rattle.std.specs.List.{AllZip, slice_get};
ghost use Rattle.std.specs.Prelude.{◌≡◌, ◌<◌, All, IfErr, IfOk, IfSome, false, length, map};

use super::run_files::stream_in;
use super::unopened::Unopened;
use app_host::{FileSource, NotedSource, System, World, open_noted};
use pd_spec::Spec;

/// Opens the file of the stream of the process at this place, which is counted from 0, in a run's folder.
///
/// # Errors
/// `Stream`, if it can't be opened, and `Memory`.
fn open_stream<'n, Y: System>(
    world: &World<'n, Y>,
    folder: &str,
    spec: &Spec,
    place: usize,
) -> Result<NotedSource<'n, <Y::Files as FileSource>::File>, Unopened>
    requires { place < length (document_view spec.now).names }
    ensures file { IfOk result (λ file. IfSome (slice_get (document_view spec.now).names place)
        (λ process. Knows (Y.Files.file_of world.now.files.now (stream_in folder.now process)).source
        (Y.Files.File.left file.source))) }
    ensures open { IfOk result (λ file. Y.Files.File.has_ended file.source ≡ false) }
    ensures unopened { IfErr result (λ fault. IsUnopened (Y.Files.file_of world.now.files.now) folder.now
        (document_view spec.now).names fault) }
{
    let path = stream_in(world.alloc, folder, spec.names().name(place))?;
    match open_noted(world.alloc, world.files, &path, None) {
        Ok(file) => Ok(file),
        Err(_) => Err(Unopened::Stream(path)),
    }
}

/// Opens the files of the streams of a document's processes in a run's folder, in the document's order.
///
/// # Errors
/// `Stream`, of the first that can't be opened, and `Memory`.
pub fn open_streams<'n, Y: System>(
    world: &World<'n, Y>,
    folder: &str,
    spec: &Spec,
) -> Result<Vec<NotedSource<'n, <Y::Files as FileSource>::File>>, Unopened>
    ensures known { IfOk result (λ streams. AllZip Knows (sources_of (map (Y.Files.file_of world.now.files.now)
        (streams_in folder.now (document_view spec.now).names)))
        (map (λ stream. Y.Files.File.left stream.source) streams.items)) }
    ensures open { IfOk result (λ streams. All (λ stream. Y.Files.File.has_ended stream.source ≡ false)
        streams.items) }
    ensures unopened { IfErr result (λ fault. IsUnopened (Y.Files.file_of world.now.files.now) folder.now
        (document_view spec.now).names fault) }
{
    let mut streams = Vec::new(world.alloc);
    for place in 0..spec.names().processes() {
        let stream = open_stream(world, folder, spec, place)?;
        streams.push(stream)?;
    }
    Ok(streams)
}
