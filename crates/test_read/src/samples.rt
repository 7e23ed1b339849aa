//! A document, as text and as it is read.
use pd_spec::Spec;
use std::alloc::Global;
use std::test::Fail;

/// A document of two processes and one predicate.
pub(crate) const DOCUMENT: &str =
    r#"{"processes":[{"name":"a","vars":{"x":0,"y":0}},{"name":"b","vars":{"z":0}}],
    "predicates":[{"name":"p","text":"a.x == 1"}]}"#;

/// The document, as it is read.
pub(crate) fn spec(alloc: Global) -> Result<Spec, Fail> {
    match Spec::read(alloc, DOCUMENT.as_bytes()) {
        Ok(spec) => Ok(spec),
        Err(_) => Err(Fail::from("refused")),
    }
}
