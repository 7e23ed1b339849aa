//! A document's bytes, and what is asked of its session beside them.
use pd_spec::Options;

/// A document's bytes, and what is asked of its session beside them.
#[derive(Clone, Copy)]
pub struct Inquiry<'d, 'o, 't> {
    /// The bytes of the session document.
    pub document: &'d [u8],
    /// What is asked beside it.
    pub options: &'o Options<'t>,
}
