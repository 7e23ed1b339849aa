//! The texts of the streams of a run.
ghost use Rattle.app_arguments.specs.Statuses.{sources_of};
ghost use Rattle.app_bundle.specs.Bundles.{IsStreamOf};
ghost use Rattle.app_bundle.specs.RunLines.{IsStreamFile, IsUnbundled, NamesFile};
ghost use Rattle.app_test.specs.Tests.{stream_in, streams_in};
ghost use Rattle.pd_spec.specs.Views.{document_view};
ghost use Rattle.std.specs.List.{AllZip, slice_get};
ghost use Rattle.std.specs.Prelude.{◌≡◌, ◌⊎◌, ◌<◌, Err, IfErr, IfOk, IfSome, Some, false, length, map, string_bytes, true};

use super::unbundled::Unbundled;
use app_host::{System, World, open_noted};
use app_test::stream_in;
use def_format::STREAM_BYTE_LIMIT;
use judge_session::{EngineFault, read_upto};
use pd_spec::Spec;

/// The bytes of the file of this name, or a byte more than a stream may have if there are more.
///
/// # Errors
/// `Read`, if it can't be opened or read, and `Memory`.
fn read_file<Y: System>(world: &World<'_, Y>, name: &str) -> Result<Vec<u8>, EngineFault>
    ensures read { IfOk result (λ bytes. IsStreamOf (Y.Files.file_of world.now.files.now name.now).source
        bytes.items) }
    ensures sure { (Y.Files.file_of world.now.files.now name.now).opens ≡ true
        → (Y.Files.file_of world.now.files.now name.now).source.fails ≡ Some false
        → result ≡ Err EngineFault.Read → ⊥ }
    ensures err { IfErr result (λ fault. (fault ≡ EngineFault.Memory) ⊎ (fault ≡ EngineFault.Read)) }
{
    let file = open_noted(world.alloc, world.files, name, None)?;
    read_upto(world.alloc, file, STREAM_BYTE_LIMIT as usize)
}

/// The text of the file of this name.
///
/// # Errors
/// `Unread`, if it can't be opened or read, `NoText`, if it isn't UTF-8, and `Memory`.
fn text_of<Y: System>(world: &World<'_, Y>, name: String) -> Result<String, Unbundled>
    ensures text { IfOk result (λ text. IsStreamOf (Y.Files.file_of world.now.files.now (string_bytes name)).source
        (string_bytes text)) }
    ensures none { IfErr result (IsUnbundled (Y.Files.file_of world.now.files.now)) }
    ensures file { IfErr result (NamesFile (λ file. file ≡ string_bytes name)) }
{
    match read_file(world, &name) {
        Ok(bytes) => match String::from_utf8(bytes) {
            Ok(text) => Ok(text),
            Err(_) => Err(Unbundled::NoText(name)),
        },
        Err(EngineFault::Read) => Err(Unbundled::Unread(name)),
        Err(_) => Err(Unbundled::Memory),
    }
}

/// The text of the stream of the process at this place, which is counted from 0, in a run's folder.
///
/// # Errors
/// As `text_of`.
fn stream_at<Y: System>(
    world: &World<'_, Y>,
    folder: &str,
    spec: &Spec,
    place: usize,
) -> Result<String, Unbundled>
    requires { place < length (document_view spec.now).names }
    ensures text { IfOk result (λ text. IfSome (slice_get (document_view spec.now).names place)
        (λ process. IsStreamOf (Y.Files.file_of world.now.files.now (stream_in folder.now process)).source
        (string_bytes text))) }
    ensures none { IfErr result (IsUnbundled (Y.Files.file_of world.now.files.now)) }
    ensures file { IfErr result (NamesFile (IsStreamFile folder.now (document_view spec.now).names)) }
{
    let path = stream_in(world.alloc, folder, spec.names().name(place))?;
    text_of(world, path)
}

/// The texts of the streams of a document's processes in a run's folder, in the document's order.
///
/// # Errors
/// That of the first that has one, as `text_of`.
pub(crate) fn streams_of<Y: System>(
    world: &World<'_, Y>,
    folder: &str,
    spec: &Spec,
) -> Result<Vec<String>, Unbundled>
    ensures texts { IfOk result (λ texts. AllZip IsStreamOf (sources_of (map (Y.Files.file_of world.now.files.now)
        (streams_in folder.now (document_view spec.now).names))) (map string_bytes texts.items)) }
    ensures none { IfErr result (IsUnbundled (Y.Files.file_of world.now.files.now)) }
    ensures file { IfErr result (NamesFile (IsStreamFile folder.now (document_view spec.now).names)) }
{
    let mut texts = Vec::new(world.alloc);
    for place in 0..spec.names().processes() {
        texts.push(stream_at(world, folder, spec, place)?)?;
    }
    Ok(texts)
}
