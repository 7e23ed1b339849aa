//! Reads parts of a bundle into memory.
ghost use Rattle.def_judgement.specs.Writes.{IsBrokenOff, IsTooLong, Source};
ghost use Rattle.read_bundle.specs.PartsRead.{HasReadPart};
ghost use Rattle.read_bundle.specs.Steps.{HasCut};
ghost use Rattle.read_bundle.specs.declared.fault.BundleFault.TheVariants as faults;
ghost use Rattle.std.specs.Prelude.{◌≡◌, ◌++◌, Err, IfOk, List, ℕ, OnOk, [], false};

use pd_gather::ByteSource;
use read_bundle::{Bundle, BundleFault};
use std::alloc::{AllocError, Global};

/// Adds the bytes that the last step gave.
fn keep_given(bytes: &mut Vec<u8>, bundle: &Bundle) -> Result<(), AllocError>
    ensures { OnOk result (bytes.new.items ≡ bytes.old.items ++ bundle.now.given) }
{
    let (held, run) = bundle.given();
    bytes.extend_from_slice(held)?;
    bytes.extend_from_slice(run)
}

/// Reads a part into memory, and gives its bytes, and whether another part begins.
///
/// # Errors
/// As `Bundle::next`, and `Memory`. The bundle and its reader aren't used again then.
pub fn read_part<R: ByteSource>(
    alloc: Global,
    reader: &mut R,
    bundle: &mut Bundle,
) -> Result<(Vec<u8>, bool), BundleFault>
    requires ready { bundle.old.ended ≡ false → R.has_ended reader.old ≡ false }
    ensures part { IfOk result (λ given. HasReadPart (λ part. given.0.items ≡ part) (R.left reader.old)
        (R.left reader.new) bundle.old bundle.new given.1) }
    ensures ready { OnOk result (bundle.new.ended ≡ false → R.has_ended reader.new ≡ false) }
    ensures long { result ≡ Err faults.Long → (input : Source) (closed : List (List ℕ)) →
        HasCut input (R.left reader.old) closed [] bundle.old → IsTooLong input }
    ensures cause { result ≡ Err faults.Read → (input : Source) (closed : List (List ℕ)) →
        HasCut input (R.left reader.old) closed [] bundle.old → IsBrokenOff input }
{
    let mut bytes = Vec::new(alloc);
    let mut next = bundle.next(reader)?;
    'steps: while next.is_bytes() {
        keep_given(&mut bytes, bundle)?;
        next = bundle.next(reader)?;
    }
    Ok((bytes, next.begins_part()))
}
