//! The parts of a bundle, as far as they are kept.
ghost use Rattle.def_format.specs.Documents.{IsDocument, inquiry_of};
ghost use Rattle.def_format.specs.Limits.{document_byte_limit};
ghost use Rattle.def_judgement.specs.Writes.{IsBrokenOff, IsTooLong, Source};
ghost use Rattle.pd_spec.specs.Views.{IsFaultOf, document_view, options_view};
ghost use Rattle.read_bundle.specs.PartsRead.{IsKept};
ghost use Rattle.read_bundle.specs.Steps.{AreParts, HasParts};
ghost use Rattle.read_bundle.specs.declared.fault.BundleFault.TheVariants as faults;
ghost use Rattle.std.specs.Prelude.{◌≡◌, ◌≤◌, ◌++◌, Err, IfErr, IfOk, List, OnOk, false, length, ℕ};

use def_format::DOCUMENT_BYTE_LIMIT;
use pd_gather::ByteSource;
use pd_spec::{Options, Spec, SpecFault};
use read_bundle::{Bundle, BundleFault, skip_parts};
use std::alloc::Global;

/// The document in what is kept of a bundle's first part, with what is asked beside it. If there is one, the whole part
/// is kept.
///
/// # Errors
/// The first fault of the document, or out of memory.
pub(crate) fn read_kept(
    alloc: Global,
    kept: &[u8],
    options: &Options<'_>,
) -> Result<Spec, SpecFault>
    ensures read { IfOk result (λ spec. (part : List ℕ) → IsKept kept.now part
        → IsDocument (inquiry_of (options_view options.now) part) (document_view spec)) }
    ensures fault { IfErr result (λ fault. (part : List ℕ) → IsKept kept.now part
        → IsFaultOf (inquiry_of (options_view options.now) part) fault) }
    ensures fits { OnOk result (length kept.now ≤ document_byte_limit) }
{
    if kept.len() > DOCUMENT_BYTE_LIMIT {
        return Err(SpecFault::Long);
    }
    Spec::read_with_options(alloc, kept, options)
}

/// Reads the parts that are left, if one has begun, and keeps nothing of them. It takes no memory.
///
/// # Errors
/// `Long` if the bundle has over 67,108,864 bytes, and `Read` if a read fails.
pub(crate) fn read_rest<R: ByteSource>(
    reader: &mut R,
    bundle: &mut Bundle,
    begins: bool,
) -> Result<(), BundleFault>
    requires ready { bundle.old.ended ≡ false → R.has_ended reader.old ≡ false }
    ensures parts { OnOk result ((input : Source) (closed : List (List ℕ)) →
        HasParts begins input (R.left reader.old) closed bundle.old → (parts : List (List ℕ))
        × AreParts input (closed ++ parts)) }
    ensures long { result ≡ Err faults.Long → (input : Source) (closed : List (List ℕ)) →
        HasParts begins input (R.left reader.old) closed bundle.old → IsTooLong input }
    ensures cause { result ≡ Err faults.Read → (input : Source) (closed : List (List ℕ)) →
        HasParts begins input (R.left reader.old) closed bundle.old → IsBrokenOff input }
{
    if !begins {
        return Ok(());
    }
    skip_parts(reader, bundle)
}
