//! Compares refusals.
ghost use Rattle.pd_report.specs.Views.{named_place_view, named_places_view, refusal_view};
ghost use Rattle.std.specs.Prelude.{◌≡◌, ◌↔◌, IsTrue};

use super::refusal::Refusal;

/// Whether two texts are the same.
fn same_text(a: &str, b: &str) -> bool
    ensures { IsTrue result ↔ (a.now ≡ b.now) }
{
    a == b
}

/// Whether these are the same event.
fn same_place(a: &(String, u64), b: &(String, u64)) -> bool
    ensures { IsTrue result ↔ (named_place_view a.now ≡ named_place_view b.now) }
{
    same_text(&a.0, &b.0) && a.1 == b.1
}

/// Whether these are the same events.
fn same_places(a: &[(String, u64)], b: &[(String, u64)]) -> bool
    ensures { IsTrue result ↔ (named_places_view a.now ≡ named_places_view b.now) }
{
    if a.len() != b.len() {
        return false;
    }
    for i in 0..a.len() {
        if !same_place(&a[i], &b[i]) {
            return false;
        }
    }
    true
}

/// Whether two refusals are the same.
pub fn same_refusal(a: &Refusal, b: &Refusal) -> bool
    ensures { IsTrue result ↔ (refusal_view a.now ≡ refusal_view b.now) }
{
    match (a, b) {
        (Refusal::Spec(a), Refusal::Spec(b)) => same_text(a, b),
        (
            Refusal::Predicate { k, word, at },
            Refusal::Predicate {
                k: other,
                word: b,
                at: here,
            },
        ) => k == other && same_text(word, b) && at == here,
        (Refusal::Streams, Refusal::Streams) => true,
        (
            Refusal::Stream { stream, line, word },
            Refusal::Stream {
                stream: other,
                line: here,
                word: b,
            },
        ) => stream == other && line == here && same_text(word, b),
        (Refusal::Absent(a), Refusal::Absent(b)) => same_text(a, b),
        (
            Refusal::Match { word, name, number },
            Refusal::Match {
                word: b,
                name: other,
                number: here,
            },
        ) => same_text(word, b) && same_text(name, other) && number == here,
        (Refusal::Cycle(a), Refusal::Cycle(b)) => same_places(a, b),
        _ => false,
    }
}
