//! What is wished of predicates, and which answers are not as wished.
ghost use Rattle.judge_runs.specs.Views.{name_view, wish_kind_view, wish_view, wishes_view};
ghost use Rattle.judge_runs.specs.Wishes.{answer_words, broken, broken_text, first_unnamed, is_of_kind, names_of};
ghost use Rattle.def_format.specs.Lists.{is_one_of};
ghost use Rattle.def_format.specs.Reports.{definitely_words, possibly_words, spaced};
ghost use Rattle.pd_report.specs.Views.{answer_view, definitely_view, possibly_view};
ghost use Rattle.pd_spec.specs.Named.{named_view};
ghost use Rattle.std.specs.Prelude.{◌≡◌, ◌++◌, ◌∷◌, IfOk, MatchOption, OnOk, [], map, string_bytes, take};
ghost use Rattle.std.specs.Str.{bytes_eq};

use pd_report::{Answer, Definitely, Possibly, push_bytes};
use pd_spec::NamedPred;
use std::alloc::{AllocError, Global};

/// What is wished of a predicate.
#[derive(Clone, Copy)]
pub enum WishKind {
    /// No consistent cut satisfies it.
    Never,
    /// Every observation passes through a cut that satisfies it.
    Always,
    /// Some consistent cut satisfies it.
    Sometimes,
}

/// What is wished of the predicate of a name, or of each predicate.
#[derive(Clone, Copy)]
pub struct Wish<'a> {
    /// The predicate's name, if it is one predicate's wish.
    pub name: Option<&'a str>,
    /// What is wished.
    pub kind: WishKind,
}

/// The word of an answer to Possibly.
pub fn possibly_word(possibly: &Possibly) -> &'static str
    ensures { take 1 (possibly_words (possibly_view possibly.now)) ≡ result.now ∷ [] }
{
    match possibly {
        Possibly::Yes(_) => "yes",
        Possibly::No => "no",
        Possibly::Unknown(_) => "unknown",
    }
}

/// The word of an answer to Definitely.
pub fn definitely_word(definitely: &Definitely) -> &'static str
    ensures { take 1 (definitely_words (definitely_view definitely.now)) ≡ result.now ∷ [] }
{
    match definitely {
        Definitely::Yes(_) => "yes",
        Definitely::No(_) => "no",
        Definitely::Unknown(_) => "unknown",
    }
}

/// Whether this is the name of a predicate.
fn is_name_of(name: &[u8], predicate: &NamedPred) -> bool
    ensures { result ≡ bytes_eq name.now (string_bytes predicate.now.name) }
{
    name == predicate.name.as_bytes()
}

/// Whether one of the predicates has this name.
pub fn has_name(predicates: &[NamedPred], name: &[u8]) -> bool
    ensures { result ≡ is_one_of (names_of (map named_view predicates.now)) name.now }
{
    predicates
        .iter()
        .any(|predicate| is_name_of(name, predicate))
}

impl WishKind {
    ghost use Rattle.judge_runs.specs.Views.{wish_kind_view};
    ghost use Rattle.judge_runs.specs.Wishes.{answer_words, broken_text, is_of_kind};
    ghost use Rattle.def_format.specs.Reports.{spaced};
    ghost use Rattle.pd_report.specs.Views.{answer_view};
    ghost use Rattle.std.specs.Prelude.{◌≡◌, ◌++◌, IfOk, OnOk};

    /// Whether an answer is as wished: one that is unknown never is.
    fn is_granted(self, answer: &Answer) -> bool
        ensures { result ≡ is_of_kind (wish_kind_view self) (answer_view answer.now).possibly
            (answer_view answer.now).definitely }
    {
        match self {
            WishKind::Never => matches!(answer.possibly, Possibly::No),
            WishKind::Always => matches!(answer.definitely, Definitely::Yes(_)),
            WishKind::Sometimes => matches!(answer.possibly, Possibly::Yes(_)),
        }
    }

    /// Appends the question that decides about the wish, and the answer.
    fn push_words(self, out: &mut Vec<u8>, answer: &Answer) -> Result<(), AllocError>
        ensures { OnOk result (out.new.items ≡ out.old.items
            ++ spaced (answer_words (wish_kind_view self) (answer_view answer.now))) }
    {
        match self {
            WishKind::Always => {
                push_bytes(out, b"definitely ")?;
                push_bytes(out, definitely_word(&answer.definitely).as_bytes())
            }
            WishKind::Never | WishKind::Sometimes => {
                push_bytes(out, b"possibly ")?;
                push_bytes(out, possibly_word(&answer.possibly).as_bytes())
            }
        }
    }

    /// What is said of an answer that isn't as wished.
    fn broken_text(self, alloc: Global, answer: &Answer) -> Result<Vec<u8>, AllocError>
        ensures { IfOk result (λ text. text.items ≡ broken_text (wish_kind_view self) (answer_view answer.now)) }
    {
        let mut text = Vec::new(alloc);
        push_bytes(&mut text, answer.name.as_bytes())?;
        push_bytes(&mut text, b" ")?;
        self.push_words(&mut text, answer)?;
        Ok(text)
    }
}

impl<'a> Wish<'a> {
    ghost use Rattle.judge_runs.specs.Views.{name_view, wish_view};
    ghost use Rattle.judge_runs.specs.Wishes.{broken_by, is_broken, is_for, lacks_name, names_of};
    ghost use Rattle.pd_report.specs.Views.{answer_view};
    ghost use Rattle.pd_spec.specs.Named.{named_view};
    ghost use Rattle.std.specs.Prelude.{◌≡◌, ◌++◌, OnOk, map};

    /// Whether it is for the predicate of an answer.
    fn is_for(&self, answer: &Answer) -> bool
        ensures { result ≡ is_for (wish_view self.now).name (answer_view answer.now) }
    {
        match self.name {
            Some(name) => answer.name.as_bytes() == name.as_bytes(),
            None => true,
        }
    }

    /// Whether it is for the predicate of an answer, which isn't as wished.
    pub fn is_broken(&self, answer: &Answer) -> bool
        ensures { result ≡ is_broken (wish_view self.now) (answer_view answer.now) }
    {
        self.is_for(answer) && !self.kind.is_granted(answer)
    }

    /// Adds what is said of each answer that isn't as wished.
    fn add_broken(
        &self,
        alloc: Global,
        answers: &[Answer],
        found: &mut Vec<Vec<u8>>,
    ) -> Result<(), AllocError>
        ensures { OnOk result (map (λ text. text.items) found.new.items ≡ map (λ text. text.items) found.old.items
            ++ broken_by (map answer_view answers.now) (wish_view self.now)) }
    {
        for answer in answers {
            if self.is_broken(answer) {
                found.push(self.kind.broken_text(alloc, answer)?)?;
            }
        }
        Ok(())
    }

    /// Whether it is for the predicate of a name that none of these has.
    fn lacks_name(&self, predicates: &[NamedPred]) -> bool
        ensures { result ≡ lacks_name (names_of (map named_view predicates.now)) (wish_view self.now).name }
    {
        match self.name {
            Some(name) => !has_name(predicates, name.as_bytes()),
            None => false,
        }
    }
}

/// What is said of the answers that aren't as wished: for each wish, in their order, those of its predicates.
///
/// # Errors
/// Out of memory.
pub(crate) fn broken(
    alloc: Global,
    wishes: &[Wish<'_>],
    answers: &[Answer],
) -> Result<Vec<Vec<u8>>, AllocError>
    ensures { IfOk result (λ found. map (λ text. text.items) found.items
        ≡ broken (wishes_view wishes.now) (map answer_view answers.now)) }
{
    let mut found = Vec::new(alloc);
    for wish in wishes {
        wish.add_broken(alloc, answers, &mut found)?;
    }
    Ok(found)
}

/// The name in the first wish whose predicate isn't among these, if there is one.
pub fn first_unnamed<'a>(wishes: &[Wish<'a>], predicates: &[NamedPred]) -> Option<&'a str>
    ensures { name_view result ≡ first_unnamed (names_of (map named_view predicates.now)) (wishes_view wishes.now) }
{
    for wish in wishes {
        if wish.lacks_name(predicates) {
            return wish.name;
        }
    }
    None
}
