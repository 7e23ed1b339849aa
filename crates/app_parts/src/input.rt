//! What a run is given: the arguments, the parts of the bundle on the input, and what is left of the input.
ghost use Rattle.app_parts.specs.Names.{part_names};
ghost use Rattle.app_parts.specs.PartSources.{has_ended_in, left_in};
ghost use Rattle.app_parts.specs.PartsKept.{HoldsParts, bytes_of};
ghost use Rattle.def_judgement.specs.Writes.{IsBrokenOff, IsTooLong};
ghost use Rattle.read_bundle.specs.declared.fault.BundleFault.TheVariants as faults;
ghost use Rattle.std.specs.Prelude.{◌≡◌, ◌++◌, Err, IfOk, [], drop, false, length, map, string_bytes, true};

use super::part_file::PartFile;
use super::parts::{Parts, read_parts};
use pd_gather::ByteSource;
use read_bundle::BundleFault;
use std::alloc::Global;

/// What a run is given.
#[derive(Drop)]
pub struct Given<I> {
    /// The arguments, after the program's name.
    pub arguments: Vec<String>,
    /// The parts of the bundle, or none.
    pub parts: Parts,
    /// The input, or nothing, if the bundle was read from it.
    pub input: PartFile<'static, I>,
}

/// Reads the bundle on the input, if it is asked for: the names of its streams are put after the arguments. Else the
/// input isn't read, and the arguments stay as they are.
///
/// # Errors
/// As `read_parts`.
pub fn read_input<I: ByteSource + Drop>(
    alloc: Global,
    is_asked: bool,
    arguments: Vec<String>,
    input: I,
) -> Result<Given<I>, BundleFault>
    requires open { I.has_ended input ≡ false }
    ensures open { IfOk result (λ given. has_ended_in I.has_ended given.input ≡ false) }
    ensures unasked { is_asked ≡ false → IfOk result (λ given. (given.arguments ≡ arguments)
        × (given.parts.parts.items ≡ []) × (left_in I.left given.input ≡ I.left input)) }
    ensures asked { is_asked ≡ true → IfOk result (λ given. HoldsParts (I.left input)
        (bytes_of given.parts.parts.items)) }
    ensures names { is_asked ≡ true → IfOk result (λ given. map string_bytes given.arguments.items
        ≡ map string_bytes arguments.items ++ drop 1 (part_names (length given.parts.parts.items))) }
    ensures long { result ≡ Err faults.Long → IsTooLong (I.left input) }
    ensures cause { result ≡ Err faults.Read → IsBrokenOff (I.left input) }
{
    if !is_asked {
        return Ok(Given {
            arguments,
            parts: Parts::none(alloc),
            input: PartFile::File(input),
        });
    }
    let mut reader = input;
    let parts = read_parts(alloc, &mut reader)?;
    Ok(Given {
        arguments: parts.with_streams(alloc, arguments)?,
        parts,
        input: PartFile::Part(&[]),
    })
}
