//! What a bundle holds that was read to its end.
ghost use Rattle.def_format.specs.Documents.{Document, IsDocument, Options as Asked, inquiry_of};
ghost use Rattle.def_judgement.specs.Writes.{IsBrokenOff, IsTooLong, Source};
ghost use Rattle.judge_bundles.specs.Contents.{FitContents, HoldsContents};
ghost use Rattle.judge_runs.specs.Views.{wishes_view};
ghost use Rattle.judge_runs.specs.Wishes as wished;
ghost use Rattle.judge_runs.specs.Wishes.{first_unnamed, names_of};
ghost use Rattle.pd_spec.specs.Views.{IsFaultOf, document_view, options_view};
ghost use Rattle.read_bundle.specs.Steps.{HasParts};
ghost use Rattle.read_bundle.specs.declared.fault.BundleFault.TheVariants as faults;
ghost use Rattle.std.specs.Prelude.{◌≡◌, ◌∷◌, Err, IfOk, List, None, Some, [], false, ℕ};

use super::parts::{read_kept, read_rest};
use def_judgement::{judgement_is_true, one_document};
use judge_runs::{Outcome, Wish, first_unnamed};
use judge_session::of_document;
use pd_gather::{ByteSource, Gathered};
use pd_report::Report;
use pd_spec::{Options, Spec, SpecFault};
use read_bundle::{Bundle, BundleFault, read_document_part, read_stream_parts};
use std::alloc::Global;

/// What a bundle holds that was read to its end.
#[derive(Drop)]
pub(crate) enum Contents {
    /// Nothing to judge: this comes of it.
    Known(Outcome),
    /// The bytes of a document, the document, which has each predicate that is wished for, and what its streams gave.
    Session(Vec<u8>, Spec, Gathered),
}

/// What a bundle holds whose document is refused for this fault, once the parts that are left were read.
///
/// # Errors
/// `Long` if the bundle has over 67,108,864 bytes, `Read` if a read fails, and `Memory`.
fn refused_contents<R: ByteSource>(
    alloc: Global,
    fault: SpecFault,
    reader: &mut R,
    bundle: &mut Bundle,
    begins: bool,
) -> Result<Contents, BundleFault>
    requires ready { bundle.old.ended ≡ false → R.has_ended reader.old ≡ false }
    ensures contents { IfOk result (λ contents. (input : Source) (options : Asked) (wishes : List wished.Condition)
        (document : List ℕ) → IsFaultOf (inquiry_of options document) fault
        → HasParts begins input (R.left reader.old) (document ∷ []) bundle.old
        → HoldsContents options wishes input contents) }
    ensures fit { IfOk result FitContents }
    ensures long { result ≡ Err faults.Long → (input : Source) (closed : List (List ℕ)) →
        HasParts begins input (R.left reader.old) closed bundle.old → IsTooLong input }
    ensures cause { result ≡ Err faults.Read → (input : Source) (closed : List (List ℕ)) →
        HasParts begins input (R.left reader.old) closed bundle.old → IsBrokenOff input }
{
    one_document();
    judgement_is_true();
    let refusal = of_document(alloc, fault)?;
    read_rest(reader, bundle, begins)?;
    Ok(Contents::Known(Outcome::Reported(Report::Refused(refusal))))
}

/// What a bundle holds whose document lacks the predicate of this name, which is wished for, once the parts that are
/// left were read.
///
/// # Errors
/// As `refused_contents`.
fn unnamed_contents<R: ByteSource>(
    alloc: Global,
    name: &str,
    reader: &mut R,
    bundle: &mut Bundle,
    begins: bool,
) -> Result<Contents, BundleFault>
    requires ready { bundle.old.ended ≡ false → R.has_ended reader.old ≡ false }
    ensures contents { IfOk result (λ contents. (input : Source) (options : Asked) (wishes : List wished.Condition)
        (document : List ℕ) (read : Document) → IsDocument (inquiry_of options document) read
        → first_unnamed (names_of read.predicates) wishes ≡ Some name.now
        → HasParts begins input (R.left reader.old) (document ∷ []) bundle.old
        → HoldsContents options wishes input contents) }
    ensures fit { IfOk result FitContents }
    ensures long { result ≡ Err faults.Long → (input : Source) (closed : List (List ℕ)) →
        HasParts begins input (R.left reader.old) closed bundle.old → IsTooLong input }
    ensures cause { result ≡ Err faults.Read → (input : Source) (closed : List (List ℕ)) →
        HasParts begins input (R.left reader.old) closed bundle.old → IsBrokenOff input }
{
    let name = String::from_str(alloc, name)?;
    read_rest(reader, bundle, begins)?;
    Ok(Contents::Known(Outcome::Unnamed(name)))
}

/// What a bundle holds with this document, whose bytes are beside it, and which has each predicate that is wished for:
/// the parts that are left are read as its streams.
///
/// # Errors
/// As `refused_contents`.
fn session_contents<R: ByteSource>(
    alloc: Global,
    document: Vec<u8>,
    spec: Spec,
    reader: &mut R,
    bundle: &mut Bundle,
    begins: bool,
) -> Result<Contents, BundleFault>
    requires ready { bundle.old.ended ≡ false → R.has_ended reader.old ≡ false }
    ensures contents { IfOk result (λ contents. (input : Source) (options : Asked) (wishes : List wished.Condition)
        → IsDocument (inquiry_of options document.items) (document_view spec)
        → first_unnamed (names_of (document_view spec).predicates) wishes ≡ None
        → HasParts begins input (R.left reader.old) (document.items ∷ []) bundle.old
        → HoldsContents options wishes input contents) }
    ensures fit { IfOk result FitContents }
    ensures long { result ≡ Err faults.Long → (input : Source) (closed : List (List ℕ)) →
        HasParts begins input (R.left reader.old) closed bundle.old → IsTooLong input }
    ensures cause { result ≡ Err faults.Read → (input : Source) (closed : List (List ℕ)) →
        HasParts begins input (R.left reader.old) closed bundle.old → IsBrokenOff input }
{
    let gathered = read_stream_parts(alloc, &spec, reader, bundle, begins)?;
    Ok(Contents::Session(document, spec, gathered))
}

/// What a bundle holds with this document, whose bytes are beside it: each predicate that is wished for is looked up in
/// it, and then the parts that are left are read.
///
/// # Errors
/// As `refused_contents`.
fn document_contents<R: ByteSource>(
    alloc: Global,
    document: Vec<u8>,
    spec: Spec,
    wishes: &[Wish<'_>],
    reader: &mut R,
    bundle: &mut Bundle,
    begins: bool,
) -> Result<Contents, BundleFault>
    requires ready { bundle.old.ended ≡ false → R.has_ended reader.old ≡ false }
    ensures contents { IfOk result (λ contents. (input : Source) (options : Asked)
        → IsDocument (inquiry_of options document.items) (document_view spec)
        → HasParts begins input (R.left reader.old) (document.items ∷ []) bundle.old
        → HoldsContents options (wishes_view wishes.now) input contents) }
    ensures fit { IfOk result FitContents }
    ensures long { result ≡ Err faults.Long → (input : Source) (closed : List (List ℕ)) →
        HasParts begins input (R.left reader.old) closed bundle.old → IsTooLong input }
    ensures cause { result ≡ Err faults.Read → (input : Source) (closed : List (List ℕ)) →
        HasParts begins input (R.left reader.old) closed bundle.old → IsBrokenOff input }
{
    match first_unnamed(wishes, spec.predicates()) {
        Some(name) => unnamed_contents(alloc, name, reader, bundle, begins),
        None => session_contents(alloc, document, spec, reader, bundle, begins),
    }
}

/// What the bundle holds that the reader gives, with what is asked beside its document. It is read to its end, in
/// pieces.
///
/// # Errors
/// `Long` if it has over 67,108,864 bytes, `Read` if a read fails, and `Memory`.
pub(crate) fn read_contents<R: ByteSource + Drop>(
    alloc: Global,
    options: &Options<'_>,
    wishes: &[Wish<'_>],
    reader: R,
) -> Result<Contents, BundleFault>
    requires open { R.has_ended reader ≡ false }
    ensures contents { IfOk result (HoldsContents (options_view options.now) (wishes_view wishes.now) (R.left reader)) }
    ensures fit { IfOk result FitContents }
    ensures long { result ≡ Err faults.Long → IsTooLong (R.left reader) }
    ensures cause { result ≡ Err faults.Read → IsBrokenOff (R.left reader) }
{
    let mut reader = reader;
    let mut bundle = Bundle::new(alloc)?;
    let (document, begins) = read_document_part(alloc, &mut reader, &mut bundle)?;
    match read_kept(alloc, &document, options) {
        Ok(spec) => document_contents(
            alloc,
            document,
            spec,
            wishes,
            &mut reader,
            &mut bundle,
            begins,
        ),
        Err(fault) => refused_contents(alloc, fault, &mut reader, &mut bundle, begins),
    }
}
