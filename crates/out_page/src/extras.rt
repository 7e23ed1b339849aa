//! What a page has beside its session.

/// What is wished of a predicate.
#[derive(Clone, Copy)]
pub enum WishKind {
    /// No consistent cut satisfies it.
    Never,
    /// Every observation passes through a cut that satisfies it.
    Always,
    /// Some consistent cut satisfies it.
    Sometimes,
}

/// What is wished of the predicate of a name.
#[derive(Clone, Copy)]
pub struct Wish<'a> {
    /// What is wished.
    pub kind: WishKind,
    /// The predicate's name.
    pub name: &'a str,
}

/// What a page has beside its session.
#[derive(Drop)]
pub struct Extras<'a> {
    /// What is wished of its predicates.
    pub wishes: Vec<Wish<'a>>,
    /// Notes, whole, as they were written.
    pub notes: Vec<String>,
    /// The pattern by which a line of a file has a link, if there is one.
    pub link: Option<&'a str>,
}
