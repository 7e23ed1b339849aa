//! Which predicate is drawn.
ghost use Rattle.judge_check.specs.Views.{checked_view, verdict_view};
ghost use Rattle.judge_draw.specs.Choices.{by_evidence, by_kind, by_name, choice, has_evidence, has_evidence_in, is_chosen_bad, is_printed, without_evidence};
ghost use Rattle.judge_draw.specs.declared.choice.Choice.TheVariants.{Lacking};
ghost use Rattle.def_judgement.specs.Findings.{has_bad};
ghost use Rattle.out_picture.specs.Scopes.{scope_view};
ghost use Rattle.std.specs.Prelude.{◌≡◌, ◌≢◌, false, map, position, slice_get, string_bytes, true};
ghost use Rattle.std.specs.Str.{bytes_eq};

use judge_check::{Checked, Verdict};
use out_picture::{DrawOptions, Kind};

/// Which predicate is drawn.
#[derive(Clone, Copy, Debug, PartialEq, Eq)]
pub(crate) enum Choice {
    /// None: no predicate has evidence.
    Alone,
    /// The predicate of this number, counted from 0.
    Of(usize),
    /// The one that was asked for, which isn't there.
    Unknown,
    /// None: there is no evidence of the kind that was asked for.
    Lacking,
}

/// Whether evidence is printed, if this is the verdict on it.
fn is_printed(verdict: Verdict) -> bool
    ensures { result ≡ is_printed (verdict_view verdict) }
{
    match verdict {
        Verdict::Good | Verdict::Bad => true,
        Verdict::Unchecked => false,
    }
}

/// Whether a predicate has evidence, of this kind if one is asked for.
fn has_evidence(kind: Option<Kind>, checked: &Checked) -> bool
    ensures { result ≡ has_evidence kind (checked_view checked.now) }
{
    match kind {
        None => is_printed(checked.possibly) || is_printed(checked.definitely),
        Some(kind) => match kind {
            Kind::Possibly => is_printed(checked.possibly),
            Kind::Definitely => is_printed(checked.definitely),
        },
    }
}

/// The number of the first predicate that has evidence, of this kind if one is asked for.
fn place_with_evidence(kind: Option<Kind>, checked: &[Checked]) -> Option<usize>
    ensures { result ≡ position (λ c. has_evidence kind (checked_view c)) checked.now }
{
    checked.iter().position(|c| has_evidence(kind, c))
}

/// What is drawn if no predicate has evidence.
fn without_evidence(kind: Option<Kind>) -> Choice
    ensures { result ≡ without_evidence kind }
{
    match kind {
        None => Choice::Alone,
        Some(_) => Choice::Lacking,
    }
}

/// The first predicate that has evidence, of this kind if one is asked for.
fn first_with_evidence(kind: Option<Kind>, checked: &[Checked]) -> Choice
    ensures { result ≡ by_evidence kind (position (λ c. has_evidence kind (checked_view c)) checked.now) }
{
    match place_with_evidence(kind, checked) {
        Some(i) => Choice::Of(i),
        None => without_evidence(kind),
    }
}

/// The number of the predicate of this name.
fn place_of(checked: &[Checked], name: &str) -> Option<usize>
    ensures { result ≡ position (λ c. bytes_eq (string_bytes c.name) name.now) checked.now }
{
    checked.iter().position(|c| c.name.as_str() == name)
}

/// Whether the predicate with this number has evidence, of this kind if one is asked for.
fn has_evidence_at(kind: Option<Kind>, checked: &[Checked], i: usize) -> bool
    ensures { result ≡ has_evidence_in kind (slice_get (map checked_view checked.now) i) }
{
    match checked.get(i) {
        Some(c) => has_evidence(kind, c),
        None => false,
    }
}

/// The predicate with this number, unless evidence of a kind is asked for that it doesn't have.
fn of_kind(kind: Option<Kind>, checked: &[Checked], i: usize) -> Choice
    ensures { result ≡ by_kind kind (map checked_view checked.now) i }
{
    match kind {
        None => Choice::Of(i),
        Some(_) => {
            if has_evidence_at(kind, checked, i) {
                Choice::Of(i)
            } else {
                Choice::Lacking
            }
        }
    }
}

/// The predicate of this name.
fn of_name(kind: Option<Kind>, checked: &[Checked], name: &str) -> Choice
    ensures { result ≡ by_name kind (map checked_view checked.now)
        (position (λ c. bytes_eq (string_bytes c.name) name.now) checked.now) }
{
    match place_of(checked, name) {
        Some(i) => of_kind(kind, checked, i),
        None => Choice::Unknown,
    }
}

/// Which predicate is drawn: the one of the name that is asked for, and without a name the first that has evidence; of
/// the kind that is asked for, if one is.
pub(crate) fn chosen(checked: &[Checked], scope: &DrawOptions<'_>) -> Choice
    ensures { result ≡ choice (scope_view scope.now) (map checked_view checked.now) }
{
    match scope.predicate {
        Some(name) => of_name(scope.kind, checked, name),
        None => first_with_evidence(scope.kind, checked),
    }
}

/// Whether there is no evidence of the kind that was asked for.
pub(crate) fn is_lacking(choice: Choice) -> bool
    ensures yes { result ≡ true → choice ≡ Lacking }
    ensures no { result ≡ false → choice ≢ Lacking }
{
    match choice {
        Choice::Lacking => true,
        Choice::Alone | Choice::Of(_) | Choice::Unknown => false,
    }
}

/// Whether a verdict on the evidence of the predicate that is drawn is bad.
pub(crate) fn is_chosen_bad(checked: &[Checked], choice: Choice) -> bool
    ensures { result ≡ is_chosen_bad (map checked_view checked.now) choice }
{
    match choice {
        Choice::Of(i) => match checked.get(i) {
            Some(c) => c.has_bad(),
            None => false,
        },
        Choice::Alone | Choice::Unknown | Choice::Lacking => false,
    }
}
