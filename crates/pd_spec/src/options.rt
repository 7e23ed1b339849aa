//! What is asked of a session beside its document.
ghost use Rattle.std.specs.Prelude.{◌≡◌, false, true};
ghost use Rattle.def_format.specs.Documents.{no_options};
ghost use Rattle.pd_spec.specs.Texts.{KeepsFields};
ghost use Rattle.pd_spec.specs.Views.{options_view};

use std::alloc::Global;

/// What is asked of a session beside its document: a width and texts of predicates in place of those that the document
/// has, and whether predicates that are decided without levels are answered whatever the width.
#[derive(Drop)]
pub struct Options<'a> {
    /// How many cuts a level may have, if that is asked for.
    pub width: Option<u64>,
    /// The texts of predicates. If there are none, the document's own predicates stay.
    pub predicates: Vec<&'a str>,
    /// Whether predicates that are decided without levels are answered whatever the width.
    pub beyond_width: bool,
}

impl<'a> Options<'a> {
    /// Nothing is asked beside the document.
    pub fn none(alloc: Global) -> Options<'a>
        ensures { options_view result ≡ no_options }
    {
        Options {
            width: None,
            predicates: Vec::new(alloc),
            beyond_width: false,
        }
    }

    /// Whether the document's fields stay as they are: no width and no predicate is asked for.
    pub fn keep_fields(&self) -> bool
        ensures yes { result ≡ true → KeepsFields (options_view self.now) }
        ensures no { result ≡ false → ¬ KeepsFields (options_view self.now) }
    {
        self.width.is_none() && self.predicates.is_empty()
    }
}
